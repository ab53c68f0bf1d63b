//! What the program says about itself: its version, and what help says about each command after its usage.

/// The version of the program, that the promises of its README were proved for it, and the kit that they were proved
/// with, by its number, letter and logic. `bin/test` compares number and logic with `rt version`. When the version
/// rises: CONTRIBUTING.md.
pub const VERSION: &str = "0.6.0\n\
    Each promise of its README was proved for this version.\n\
    Proved with rattle-kit-13f logic dac8208d650f15bf";

// What help says of a command that reads a trace: these words, the faults that it has for that, and further faults and
// the rest.
macro_rules! reads_trace {
    ($words:literal, $rest:literal) => {
        concat!(
            $words,
            "\n\nFaults, each one line on standard error. 'bully explain' shows more about the\n\
            first three: the text of the row, and what is allowed there.\n  \
            bully: trace row 1: BadHeader  the first row is no header, or there is none\n  \
            bully: trace row N: BadRow     row N has none of the forms that a trace allows\n  \
            bully: trace row N: TooManyRows  more than 1,000,000 rows follow the header\n  \
            bully: FILE: REASON            FILE can't be opened; the reason is the system's\n  \
            bully: Read                    the input can't be read\n  \
            bully: Write                   not all of the output could be written\n  \
            bully: OutOfMemory             an allocation failed\n",
            $rest
        )
    };
}

// The same of one that reads a configuration alone.
macro_rules! reads_config {
    ($words:literal, $rest:literal) => {
        concat!(
            $words,
            "\n\nFaults, each one line on standard error. For those of the configuration\n\
            'bully explain --config=CONFIG' shows the value, and what is allowed there.\n  \
            bully: config: Toml            the text isn't UTF-8, or isn't TOML\n  \
            bully: config: Missing KEY     a required key isn't there\n  \
            bully: config: Kind KEY        it, or an element of it, is of the wrong kind\n  \
            bully: config: Range KEY       its value is out of its range\n  \
            bully: config: DoubleName      two names are equal\n  \
            bully: config: UnknownKey      a key isn't allowed where it is\n  \
            bully: Read                    the configuration can't be read\n  \
            bully: Write                   not all of the output could be written\n  \
            bully: OutOfMemory             an allocation failed\n",
            $rest
        )
    };
}

/// The help of the program.
pub const PROGRAM: &str = "\
    A command reads a trace in FILE or on standard input, or a configuration. It\n\
    writes the result on standard output, and a fault as one line on standard error.\n\
    The help of a command explains each such line; 'bully explain' shows more about a\n\
    fault of form, and about a trace that is refused or differs.\n\
    \n\
    Statuses: 0 done, 1 the trace is refused or differs, 2 wrong arguments, 3 a fault\n\
    of form in a trace or a configuration, or a trace too long to annotate, 4\n\
    something failed: FILE can't be opened, Read, Write, Spawn, Finish or\n\
    OutOfMemory.\n\
    \n\
    Example: bully play examples/two_nodes.toml | bully check";

/// The help of `check`.
pub const CHECK: &str = reads_trace!(
    "\
        Reads a trace in FILE or on standard input. Once all rows are read, writes its\n\
        verdict on standard output: 'lawful', the number of events and a line for each\n\
        node; or 'refused', the row and the cause; or 'differs' and the row. With --json\n\
        it writes the same as one object.\n\
        \n\
        Statuses: 0 lawful, 1 refused or differs, 3 a fault of the trace's form, 4 FILE\n\
        can't be opened, Read, Write or OutOfMemory.",
    "\
        \n\
        Example: bully check examples/alone.csv"
);

/// The help of `explain`.
pub const EXPLAIN: &str = reads_trace!(
    "\
        Reads a trace in FILE or on standard input as 'check' does, and explains on\n\
        standard output the row that decided the verdict: the rule that it breaks, the\n\
        node's point, its call slot, the rows that were possible, and its last rows. For\n\
        a fault of form it prints on standard error what is allowed there. With --json it\n\
        writes an object. With --config it reads a configuration, and does the same for\n\
        its first fault: then it takes neither FILE nor --json.\n\
        \n\
        Statuses: 0 lawful, or no fault in the configuration, 1 refused or differs, 3 a\n\
        fault of form, 4 FILE can't be opened, Read, Write or OutOfMemory.",
    "  bully: config: ..              with --config: 'bully help play' lists these\n\
        \n\
        Example: bully explain examples/orphan_ready.csv"
);

/// The help of `follow`.
pub const FOLLOW: &str = reads_trace!(
    "\
        Reads a trace on standard input, or in FILE while it grows, and judges each row\n\
        as it comes. Writes a line on standard output for each change of a node's status,\n\
        coordinator or task: the time, the row, the node and its new state. With --json\n\
        each line is an object. At the first row that is refused or differs it prints\n\
        what 'explain' prints, and stops; at the end of standard input, what 'check'\n\
        prints. A regular file has no end: stop 'follow' with Ctrl-C.\n\
        \n\
        Statuses: 0 lawful, 1 refused or differs, 3 a fault of the trace's form, 4 FILE\n\
        can't be opened, Read, Write or OutOfMemory.",
    "\
        \n\
        Example: bully play examples/two_nodes.toml | bully follow"
);

/// The help of `upgrade`.
pub const UPGRADE: &str = reads_trace!(
    "\
        Reads a trace of any version in FILE or on standard input, and writes it on\n\
        standard output in version 2, or in version 3 if a row has further fields, with\n\
        the same rows and the same verdict. It doesn't check whether the trace is lawful.\n\
        \n\
        Statuses: 0 written, 3 a fault of the trace's form, 4 FILE can't be opened, Read,\n\
        Write or OutOfMemory.",
    "\
        \n\
        Example: bully upgrade examples/alone.csv | bully check"
);

/// The help of `annotate`.
pub const ANNOTATE: &str = reads_trace!(
    "\
        Reads a lawful trace of any version in FILE or on standard input, and writes it\n\
        on standard output in version 3 with all further fields: the call of each event,\n\
        its answer, and after each event the whole vector of the node that it changed. If\n\
        the trace isn't lawful, it writes the verdict on standard error.\n\
        \n\
        Statuses: 0 written, 1 refused or differs, 3 a fault of the trace's form, or more\n\
        rows than a trace may have, 4 FILE can't be opened, Read, Write or OutOfMemory.",
    "  bully: refused N CAUSE         the trace is refused at row N\n  \
        bully: differs N               the trace differs at row N\n  \
        bully: annotated trace: TooManyRows  it would have more than 1,000,000 rows\n\
        \n\
        Example: bully annotate examples/alone.csv | bully check"
);

/// The help of `draw`.
pub const DRAW: &str = reads_trace!(
    "\
        Reads a trace in FILE or on standard input as 'check' does, and writes an SVG\n\
        picture of it on standard output: a lane for each node, and arrows for the calls.\n\
        It shows the 200 rows that end at the verdict, or those of --rows. A row that is\n\
        refused or differs is the last one, with a sentence below it. --html writes the\n\
        picture as a page for a browser, with a search and what each row changes. --text\n\
        draws for a terminal. --without-claims leaves out claims, the rows that aren't\n\
        events, except one at which the trace differs.\n\
        \n\
        Statuses: 0 lawful, 1 refused or differs, 2 wrong arguments, 3 a fault of form in\n\
        the trace or in the configuration, 4 FILE can't be opened, Read, Write or\n\
        OutOfMemory.",
    "  bully: config: ..              with --names: 'bully help play' lists these\n\
        \n\
        Example: bully draw examples/all_up.csv > all_up.svg"
);

/// The help of `play`.
pub const PLAY: &str = reads_config!(
    "\
        Reads the configuration, plays its group turn by turn on one thread, and writes\n\
        what happened as a trace on standard output. A configuration always gives the\n\
        same trace.\n\
        \n\
        Statuses: 0 written, 3 a fault in the configuration, 4 Read, Write or\n\
        OutOfMemory.",
    "\
        \n\
        Example: bully play examples/three_nodes.toml"
);

/// The help of `run`.
pub const RUN: &str = reads_config!(
    "\
        Reads the configuration, runs its group with a thread for the operator and one\n\
        for each node, and writes its history as a trace on standard output. Runs may\n\
        differ; each history is lawful.\n\
        \n\
        Statuses: 0 written, 3 a fault in the configuration, 4 Read, Write, Spawn, Finish\n\
        or OutOfMemory.",
    "  bully: Spawn                   a thread can't be started\n  \
        bully: Finish                  a thread's own log differs from the history\n\
        \n\
        Example: bully run examples/three_nodes.toml | bully check"
);

/// The help of `table`.
pub const TABLE: &str = reads_config!(
    "\
        Reads the configuration, and plans a table over the members that is balanced by\n\
        their weights, with the fewest moves from the old one. Writes the owners, how\n\
        many partitions move, and how many could stay, each on a line of standard output;\n\
        with --json as one object.\n\
        \n\
        Statuses: 0 written, 2 no such member, or owners that are no table, 3 a fault in\n\
        the configuration, 4 Read, Write or OutOfMemory.",
    "  bully: words: Member           a MEMBER isn't among the names\n  \
        bully: words: Length           OWNERS are more or fewer than the partitions\n  \
        bully: words: Owner            one of OWNERS is a number that no node has\n  \
        bully: words: Syntax           one of OWNERS isn't a number\n\
        \n\
        Example: bully table examples/three_nodes.toml a b --old '1 2 2 2 3'"
);

/// The help of `completion`.
pub const COMPLETION: &str = "\
    Writes on standard output a script by which bash, zsh or fish completes the\n\
    program's commands and options.\n\
    \n\
    Statuses: 0 written, 2 another shell, 4 Write or OutOfMemory.\n\
    \n\
    Faults, each one line on standard error:\n  \
    bully: words: Shell: ..        SHELL isn't bash, zsh or fish\n  \
    bully: Write                   not all of the output could be written\n  \
    bully: OutOfMemory             an allocation failed\n\
    \n\
    Example: bully completion bash > bully.bash";
