ghost use Rattle.std.specs.Prelude.{◌≡◌, ◌≢◌, ◌↔◌, ◌⊎◌, ◌+◌, ◌-◌, ◌*◌, ◌/◌, ◌%◌, ◌^◌, ◌<◌, ◌≤◌, ℕ, [], Some, length};
ghost use Rattle.std.specs.Prelude.{All, Contains, IfSome, IsTrue};
ghost use Rattle.bully_base.specs.NodeSet.{members_of, with_node, without_node, below_node, highest_of, lowest_of};
ghost use Rattle.bully_base.specs.NodeSet.{IsFallingBelow, IsHighestBit, IsLowestBit};
ghost use Rattle.bully_base.specs.UsedWords.{used_of, used_words};
ghost use Rattle.bully_base.specs.Setup.{IsNodeNumber};
ghost use Rattle.bully_base.specs.declared.TheConstants.{NODES_MAX};
ghost use Rattle.bully_base.specs.declared.node_set.TheConstants.{WORDS};

use crate::{NODES_MAX, Node};
use std::marker::Model;

// How many words of 64 bits have a bit for each node.
const WORDS: usize = NODES_MAX as usize / 64;

/// A set of nodes. Contracts see its members in falling order.
#[derive(Clone, Copy, Debug)]
pub struct NodeSet {
    words: [u64; WORDS], // a bit for each node, the lowest of the first word for node 1
    used: usize, // how many words there are up to the last that isn't 0, so that a small set is a quick one
}

impl Model for NodeSet {
    ghost use Rattle.std.specs.Prelude.{List, ℕ};
    ghost use Rattle.bully_base.specs.NodeSet.{members_of, words_of};
    ghost use Rattle.bully_base.specs.UsedWords.{used_of, IsRow};

    ghost Value = { List ℕ };

    ghost view = { λ s. members_of s.words };

    ghost invariant = { λ s. IsRow s.words s.used };

    ghost inverse = { λ ms. record { words = words_of ms; used = used_of (words_of ms) } };

    ghost use Rattle.bully_base.specs.NodeSetView.{inverse_of_view};

    ghost inverse_ok = { inverse_of_view };
}

/// Two sets are equal where they have the same members.
impl PartialEq for NodeSet {
    ghost use Rattle.std.specs.Cmp.{partial_equiv_from_equiv};
    ghost use Rattle.bully_base.specs.NodeSetEq.{same_set, same_set_equiv};

    ghost eq = { same_set };

    ghost laws = { partial_equiv_from_equiv same_set_equiv };

    fn eq(&self, other: &NodeSet) -> bool {
        self.used_words() == other.used_words()
    }
}

impl Eq for NodeSet {
    ghost use Rattle.bully_base.specs.NodeSetEq.{same_set_equiv};

    ghost laws = { same_set_equiv };
}

impl NodeSet {
    /// The empty set.
    pub fn new() -> Self
        ensures { result ≡ [] }
    {
        NodeSet {
            words: [0; WORDS],
            used: 0,
        }
    }

    /// Puts the node in.
    pub fn insert(&mut self, node: Node)
        ensures after { self.new ≡ with_node node self.old }
        ensures members { (j : ℕ) → Contains self.new j ↔ ((j ≡ node) ⊎ Contains self.old j) }
    {
        let place = place_of(node);
        self.words[place] |= bit_of(node);
        self.used = self.used.max(place + 1);
    }

    /// Takes the node out.
    pub fn remove(&mut self, node: Node)
        ensures after { self.new ≡ without_node node self.old }
        ensures members { (j : ℕ) → Contains self.new j ↔ (Contains self.old j × (j ≢ node)) }
    {
        let place = place_of(node);
        self.words[place] &= !bit_of(node);
        self.used = count_used(&self.words[..self.used]);
    }

    /// Whether the node is a member.
    pub fn has(&self, node: Node) -> bool
        ensures { IsTrue result ↔ Contains self.now node }
    {
        self.words[place_of(node)] & bit_of(node) != 0
    }

    /// The highest member.
    pub fn highest(&self) -> Option<Node>
        ensures highest { result ≡ highest_of self.now }
        ensures falling { IsFallingBelow (NODES_MAX + 1) self.now }
        ensures largest { IfSome result (λ m. (Contains self.now m) × All (λ j. j ≤ m) self.now) }
    {
        highest_among(self.used_words())
    }

    /// The lowest member.
    pub fn lowest(&self) -> Option<Node>
        ensures lowest { result ≡ lowest_of self.now }
        ensures least { IfSome result (λ m. (Contains self.now m) × All (λ j. m ≤ j) self.now) }
    {
        lowest_among(self.used_words())
    }

    /// The highest member below the node.
    pub fn below(&self, node: Node) -> Option<Node>
        ensures { result ≡ highest_of (below_node node self.now) }
    {
        let place = place_of(node);
        let part = self.words[place] & (bit_of(node) - 1);
        if part != 0 {
            node_at(place, highest_bit(part))
        } else {
            highest_among(&self.words[..place])
        }
    }

    /// How many members there are.
    pub fn len(&self) -> usize
        ensures len { result ≡ length self.now }
        ensures falling { IsFallingBelow (NODES_MAX + 1) self.now }
    {
        count_among(self.used_words())
    }

    /// Whether there is no member.
    pub fn is_empty(&self) -> bool
        ensures { IsTrue result ↔ (self.now ≡ []) }
    {
        self.lowest().is_none()
    }

    // The words up to the last that isn't 0, in which all members are.
    fn used_words(&self) -> &[u64]
        ensures words { result.now ≡ used_words self.now }
        ensures members { members_of result.now ≡ self.now }
        ensures within { length result.now ≤ WORDS }
    {
        &self.words[..self.used]
    }
}

// How many words there are up to the last that isn't 0.
fn count_used(words: &[u64]) -> usize
    ensures used { result ≡ used_of words.now }
    ensures within { result ≤ length words.now }
{
    let mut place = words.len();
    while place > 0 {
        place -= 1;
        let word = words[place];
        if word != 0 {
            return place + 1;
        }
    }
    0
}

// The highest node of these words, the first of which starts with node 1.
fn highest_among(words: &[u64]) -> Option<Node>
    requires { length words.now ≤ WORDS }
    ensures { result ≡ highest_of (members_of words.now) }
{
    let used = count_used(words);
    if used == 0 {
        return None;
    }
    let place = used - 1;
    node_at(place, highest_bit(words[place]))
}

// The lowest node of these words.
fn lowest_among(words: &[u64]) -> Option<Node>
    requires { length words.now ≤ WORDS }
    ensures { result ≡ lowest_of (members_of words.now) }
{
    for (place, word) in words.iter().enumerate() {
        if *word != 0 {
            return node_at(place, lowest_bit(*word));
        }
    }
    None
}

// How many nodes these words have.
fn count_among(words: &[u64]) -> usize
    requires { length words.now ≤ WORDS }
    ensures { result ≡ length (members_of words.now) }
{
    let mut count = 0;
    for word in words {
        count += word.count_ones() as usize;
    }
    count
}

// The place of the node's word.
fn place_of(node: Node) -> usize
    ensures place { result ≡ (node - 1) / 64 }
    ensures within { result < WORDS }
{
    usize::from((node.number() - 1) / 64)
}

// The node's bit in its word.
fn bit_of(node: Node) -> u64
    ensures bit { result ≡ 2 ^ ((node - 1) % 64) }
    ensures within { IsNodeNumber node }
{
    1 << ((node.number() - 1) % 64)
}

// The node of this bit, from 0 to 63, of the word at this place.
fn node_at(place: usize, bit: u16) -> Option<Node>
    requires place_in { place < WORDS }
    requires bit_in { bit < 64 }
    ensures { result ≡ Some (place * 64 + bit + 1) }
{
    Node::new(place as u16 * 64 + bit + 1)
}

// Which bit is the highest that is set.
fn highest_bit(word: u64) -> u16
    requires { word ≢ 0 }
    ensures { IsHighestBit word result }
{
    (u64::BITS - 1 - word.leading_zeros()) as u16
}

// Which bit is the lowest that is set.
fn lowest_bit(word: u64) -> u16
    requires { word ≢ 0 }
    ensures { IsLowestBit word result }
{
    word.trailing_zeros() as u16
}
