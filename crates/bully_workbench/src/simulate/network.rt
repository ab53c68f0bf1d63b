use super::agents::{answer_of, asked, failed, new_agent, place_of, started};
use super::random::Random;
use bully_agent::Agent;
use bully_base::{Node, Setup, Status};
use bully_calls::{Answer, Call, NodeEventKind, Reply, Request};
use bully_rows::{Claim, Detail, DetailedEvent, Row, WholeClaim};
use bully_steps::Want;
use bully_world::{AppliedStep, Event, Refused};
use std::alloc::Global;

/// The premise that a network breaks on purpose, now and then.
#[derive(Clone, Copy, PartialEq, Eq)]
pub enum Breach {
    /// None.
    Nothing,
    /// Calls are taken as failed while their callees are up.
    Slow,
    /// Replies are made up.
    Invented,
    /// Requests of nodes that crashed or dropped them are delivered.
    Late,
    /// Requests run twice.
    Twice,
}

/// What is on its way.
#[derive(Drop)]
enum Mail {
    Ask(Request),
    Tell(Reply, Call),
}

/// Nodes on their own, what is on its way between them, and their log: rows in which all is said. It delays what they
/// tell each other while nodes crash and recover. A step that answers nothing was refused memory, or an agent refused
/// what it shouldn't.
#[derive(Drop)]
pub struct Network {
    alloc: Global,
    random: Random,
    breach: Breach,
    period: usize,
    agents: Vec<Agent>,
    mail: Vec<Mail>,
    rows: Vec<Row>,
    requests: u64, // how many ran
}

impl Network {
    /// Nodes that are all Down. One of them crashes or recovers in every tenth step; of every third seed in every
    /// hundredth, so that more elections come to their end.
    pub fn new(alloc: Global, setup: &Setup, seed: u64, breach: Breach) -> Option<Network> {
        let agents = agents_of(alloc, setup)?;
        Some(Network {
            alloc,
            random: Random(seed.wrapping_mul(2).wrapping_add(1)),
            breach,
            period: if seed % 3 == 0 { 100 } else { 10 },
            agents,
            mail: Vec::new(alloc),
            rows: Vec::new(alloc),
            requests: 0,
        })
    }

    /// The log.
    pub fn into_rows(self) -> Vec<Row> {
        self.rows
    }

    /// How many requests ran.
    pub fn requests(&self) -> u64 {
        self.requests
    }

    /// So many steps, and then each node's vector comes into the log.
    pub fn run(&mut self, steps: u32) -> Option<()> {
        for _ in 0..steps {
            self.step()?;
        }
        self.claim_all()
    }

    // One step: a crash or a recovery, once in a period; else a delivery, a node's turn, its timer, or a look at it.
    fn step(&mut self) -> Option<()> {
        let place = self.random.below(self.agents.len())?;
        if self.random.below(self.period)? == 0 {
            return self.fall_or_rise(place);
        }
        match self.random.next() % 20 {
            0 => self.time(place),
            1 => self.claim(place),
            2..=9 => self.deliver(place),
            _ => self.go_on(place),
        }
    }

    // Each node's vector comes into the log.
    fn claim_all(&mut self) -> Option<()> {
        for place in 0..self.agents.len() {
            self.claim(place)?;
        }
        Some(())
    }

    // Whether the premise is broken now, if it is this one.
    fn breaks(&mut self, breach: Breach) -> bool {
        self.breach == breach && self.random.next() % 8 == 0
    }

    fn log(&mut self, row: Row) -> Option<()> {
        self.rows.push(row).ok()
    }

    // The step's event comes into the log, if it was taken.
    fn log_taken(&mut self, taken: Result<AppliedStep, Refused>) -> Option<()> {
        match taken {
            Ok(taken) => self.log(Row::Event(taken.event)),
            Err(_) => None,
        }
    }

    fn log_call(&mut self, node: Node, detail: Detail) -> Option<()> {
        self.log(Row::Detailed(DetailedEvent { node, detail }))
    }

    fn send(&mut self, mail: Mail) -> Option<()> {
        self.mail.push(mail).ok()
    }

    // The node's vector comes into the log.
    fn claim(&mut self, place: usize) -> Option<()> {
        let claim = claim_of(self.alloc, self.agents.get(place)?)?;
        self.log(Row::Whole(claim))
    }

    // A node that is up crashes; one that is Down recovers, at times in a process of its own.
    fn fall_or_rise(&mut self, place: usize) -> Option<()> {
        let is_new = self.random.next() % 2 == 0;
        if self.is_down(place) {
            self.rise(place, is_new)
        } else {
            self.fall(place)
        }
    }

    // The node crashes, and what it sent is lost.
    fn fall(&mut self, place: usize) -> Option<()> {
        let agent = self.agents.get_mut(place)?;
        let node = agent.node();
        let taken = agent.apply(NodeEventKind::Crash);
        self.forget(node);
        self.log_taken(taken)
    }

    // The node recovers, in another process if it is to be new.
    fn rise(&mut self, place: usize, is_new: bool) -> Option<()> {
        let alloc = self.alloc;
        let agent = self.agents.get_mut(place)?;
        if is_new {
            make_anew(alloc, agent)?;
        }
        let taken = agent.apply(NodeEventKind::Recover);
        self.log_taken(taken)
    }

    // What the node sent is lost.
    fn forget(&mut self, node: Node) {
        if self.breach != Breach::Late {
            self.mail.retain(|mail| !is_request_of(mail, node));
        }
    }

    // The node's timer: it checks, or has a timeout.
    fn time(&mut self, place: usize) -> Option<()> {
        let checks = self.random.next() % 2 == 0;
        let agent = self.agents.get_mut(place)?;
        let taken = if checks {
            agent.apply(NodeEventKind::Check)
        } else {
            agent.apply(NodeEventKind::Timeout)
        };
        match taken {
            Err(Refused::IsDown | Refused::Busy) => Some(()),
            taken => self.log_taken(taken),
        }
    }

    // The first node from this place on that can do something does it.
    fn go_on(&mut self, place: usize) -> Option<()> {
        let count = self.agents.len();
        for offset in 0..count {
            if self.turn(place.wrapping_add(offset) % count)? {
                return Some(());
            }
        }
        Some(())
    }

    // The node does what it wants to do next. Whether it did something.
    fn turn(&mut self, place: usize) -> Option<bool> {
        let alloc = self.alloc;
        let agent = self.agents.get_mut(place)?;
        match agent.wants() {
            Want::Nothing => return Some(false),
            Want::Await => return self.give_up(place),
            Want::Start(call) => self.start(place, call)?,
            Want::Move => {
                let taken = agent.apply(NodeEventKind::Move);
                self.log_taken(taken)?;
            }
            Want::Plan => {
                let taken = planned(alloc, agent);
                self.log_taken(taken)?;
            }
        }
        Some(true)
    }

    // The node starts its call, whose request is on its way then.
    fn start(&mut self, place: usize, call: Call) -> Option<()> {
        let agent = self.agents.get_mut(place)?;
        let node = agent.node();
        let request = started(agent)?;
        self.send(Mail::Ask(request))?;
        self.log_call(node, Detail::unanswered(NodeEventKind::Start, call))
    }

    // An orphan is dropped at times. Whether it was.
    fn give_up(&mut self, place: usize) -> Option<bool> {
        if self.random.next() % 4 != 0 {
            return Some(false);
        }
        match self.orphan(place) {
            Some(call) => {
                self.drop_orphan(place, call)?;
                Some(true)
            }
            None => Some(false),
        }
    }

    // The node's call, if it is an orphan.
    fn orphan(&self, place: usize) -> Option<Call> {
        match self.agents.get(place) {
            Some(agent) if agent.slot().is_orphan(agent.generation()) => agent.slot().call(),
            _ => None,
        }
    }

    // The node's call is dropped, and with it what it sent.
    fn drop_orphan(&mut self, place: usize, call: Call) -> Option<()> {
        let agent = self.agents.get_mut(place)?;
        let node = agent.node();
        answer_of(agent.apply(NodeEventKind::Drop)).ok()?;
        self.forget(node);
        self.log_call(node, Detail::unanswered(NodeEventKind::Drop, call))
    }

    // Something that is on its way comes; where nothing is, a node goes on.
    fn deliver(&mut self, place: usize) -> Option<()> {
        let Some(index) = self.random.below(self.mail.len()) else {
            return self.go_on(place);
        };
        match self.mail.swap_remove(index) {
            Mail::Ask(request) => self.ask(&request),
            Mail::Tell(reply, call) => self.tell(reply, call),
        }
    }

    // A request comes to its callee, or fails where that is Down.
    fn ask(&mut self, request: &Request) -> Option<()> {
        let (caller, number, call) = (request.caller, request.number, request.call);
        if self.is_down(place_of(call.callee)) || self.breaks(Breach::Slow) {
            return self.fail(caller, number, call);
        }
        if self.breaks(Breach::Invented) {
            let answer = Answer::Yes;
            let reply = Reply {
                caller,
                number,
                answer,
            };
            return self.tell(reply, call);
        }
        self.serve(request)?;
        if self.breaks(Breach::Twice) {
            self.serve(request)?;
        }
        Some(())
    }

    // The request runs at its callee, and its reply is on its way then.
    fn serve(&mut self, request: &Request) -> Option<()> {
        let callee = self.agents.get_mut(place_of(request.call.callee))?;
        let reply = asked(callee, request)?;
        self.requests = self.requests.wrapping_add(1);
        self.log_call(
            request.caller,
            Detail::answered(NodeEventKind::Run, request.call, reply.answer),
        )?;
        self.send(Mail::Tell(reply, request.call))
    }

    // The caller's call failed, and is over.
    fn fail(&mut self, caller: Node, number: u32, call: Call) -> Option<()> {
        let agent = self.agents.get_mut(place_of(caller))?;
        match failed(agent, number) {
            Ok(answer) => self.log_failure(caller, call, answer),
            Err(Refused::NoCall) => Some(()),
            Err(_) => None,
        }
    }

    // The call failed, and returned with this answer.
    fn log_failure(&mut self, caller: Node, call: Call, answer: Answer) -> Option<()> {
        let Call { callee, kind } = call;
        self.log_call(
            caller,
            Detail::unanswered(NodeEventKind::Lose, Call { callee, kind }),
        )?;
        self.log_call(
            caller,
            Detail::answered(NodeEventKind::Return, Call { callee, kind }, answer),
        )
    }

    // A reply comes to its caller, which lets it go where that call is over; it is lost where its callee is Down.
    fn tell(&mut self, reply: Reply, call: Call) -> Option<()> {
        let caller = reply.caller;
        if self.is_down(place_of(call.callee)) {
            return self.fail(caller, reply.number, call);
        }
        let agent = self.agents.get_mut(place_of(caller))?;
        match answer_of(agent.replied(reply)) {
            Ok(answer) => self.log_call(
                caller,
                Detail::answered(NodeEventKind::Return, call, answer),
            ),
            Err(Refused::NoCall) => Some(()),
            Err(_) => None,
        }
    }

    // Whether there is a node at this place, and it is Down.
    fn is_down(&self, place: usize) -> bool {
        match self.agents.get(place) {
            Some(agent) => agent.vector().status() == Status::Down,
            None => false,
        }
    }
}

// The nodes of a group, all Down.
fn agents_of(alloc: Global, setup: &Setup) -> Option<Vec<Agent>> {
    let mut agents = Vec::new(alloc);
    for number in 1..=setup.nodes() {
        let agent = new_agent(alloc, setup, number)?;
        agents.push(agent).ok()?;
    }
    Some(agents)
}

// The node plans, from the task that it has. Memory that is refused is told as a step that isn't offered.
fn planned(alloc: Global, agent: &mut Agent) -> Result<AppliedStep, Refused> {
    match agent.prepare(alloc, agent.vector().task()) {
        Ok(table) => agent.plan(table),
        Err(_) => Err(Refused::NoStep),
    }
}

// The node, which is Down, comes to another process, with its log and with the task that it kept.
fn make_anew(alloc: Global, agent: &mut Agent) -> Option<()> {
    let task = agent.vector().task();
    let made = Agent::new(alloc, agent.setup(), agent.node(), agent.events(), task).ok()?;
    *agent = made;
    Some(())
}

// A claim of all of the node's vector.
fn claim_of(alloc: Global, agent: &Agent) -> Option<WholeClaim> {
    let vector = agent.vector();
    let claim = Claim {
        node: agent.node(),
        status: vector.status(),
        coordinator: vector.coordinator(),
    };
    let task = match vector.task() {
        Some(task) => Some(task.copy().ok()?),
        None => None,
    };
    WholeClaim::new(alloc, claim, vector.halter(), *vector.up(), task).ok()
}

// Whether this is a request of the node.
fn is_request_of(mail: &Mail, node: Node) -> bool {
    match mail {
        Mail::Ask(request) => request.caller == node,
        Mail::Tell(_, _) => false,
    }
}
