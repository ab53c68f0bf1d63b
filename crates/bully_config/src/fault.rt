ghost use Rattle.std.specs.Prelude.{◌≡◌};
ghost use Rattle.bully_config.specs.Keys.{word_of, name_of, key_of};

use std::alloc::AllocError;
use std::fmt;

/// A key of a configuration. The first nine stand at the top, the last three in a fault.
#[derive(Clone, Copy, PartialEq, Eq, Debug)]
pub enum Key {
    /// How many nodes the group has: an integer from 1 to [`bully_base::NODES_MAX`].
    Nodes,
    /// How many partitions its task has: an integer from 1 to [`bully_base::PARTITIONS_MAX`].
    Partitions,
    /// The most events: an integer from 1 to 1,000,000.
    Events,
    /// The turns of each thread: an integer from 1 to 1,000,000.
    Turns,
    /// How often an idle node checks, in turns: an integer from 2 to 65,536. It may be left out, and is 16 then.
    Period,
    /// The names of the nodes, in the order of their numbers: an array of as many strings as nodes, none empty.
    Names,
    /// What the nodes weigh, in the order of their numbers: an array of as many integers as nodes, each from 1 to
    /// 1,000. It may be left out, and all are 1 then.
    Weights,
    /// Whether a node keeps its task over a crash: a boolean. It may be left out, and is `false` then.
    Keep,
    /// The faults: an array of at most 10,000 tables. It may be left out.
    Fault,
    /// The turn of a fault: an integer from 1 to the turns.
    At,
    /// The name of a fault's node: a string, one of the names.
    Node,
    /// What the fault is: the string `crash` or `recover`.
    Kind,
}

impl Key {
    /// The key's text in a document.
    pub fn word(self) -> &'static str
        ensures { result.now ≡ word_of self }
    {
        match self {
            Key::Nodes => "nodes",
            Key::Partitions => "partitions",
            Key::Events => "events",
            Key::Turns => "turns",
            Key::Period => "period",
            Key::Names => "names",
            Key::Weights => "weights",
            Key::Keep => "keep",
            Key::Fault => "fault",
            Key::At => "at",
            Key::Node => "node",
            Key::Kind => "kind",
        }
    }
}

impl fmt::Display for Key {
    ghost use Rattle.std.specs.Prelude.{Some};
    ghost use Rattle.bully_config.specs.Keys.{word_of};

    ghost output = { λ key. Some (word_of key) };

    fn fmt<W: fmt::Write>(&self, f: &mut fmt::Formatter<W>) -> fmt::Result {
        f.write_str(self.word())
    }
}

/// Why a text isn't read as a configuration: the first refusal that holds, in this order. Each is looked for in
/// the whole document before the next one, and within each the keys come in the order of [`Key`], those at the
/// top first, and then fault by fault. The rule: docs/FORMATS.md.
#[derive(Clone, Copy, PartialEq, Eq, Debug)]
pub enum ConfigFault {
    /// The text is no TOML document.
    Toml,
    /// A required key isn't there.
    Missing(Key),
    /// A value, or a member of `names`, `weights` or `fault`, has another kind than the profile's.
    Kind(Key),
    /// A value is out of its range.
    Range(Key),
    /// Two names are equal.
    DoubleName,
    /// There is a key that the profile doesn't list, at the top or in a fault.
    UnknownKey,
    /// An allocation failed. It is answered at once, so it says nothing of the text.
    OutOfMemory,
}

impl ConfigFault {
    /// The fault's name, as the program tells it, without its key.
    pub fn name(self) -> &'static str
        ensures { result.now ≡ name_of self }
    {
        match self {
            ConfigFault::Toml => "Toml",
            ConfigFault::Missing(_) => "Missing",
            ConfigFault::Kind(_) => "Kind",
            ConfigFault::Range(_) => "Range",
            ConfigFault::DoubleName => "DoubleName",
            ConfigFault::UnknownKey => "UnknownKey",
            ConfigFault::OutOfMemory => "OutOfMemory",
        }
    }

    /// The key at fault; none where the fault tells no key.
    pub fn key(self) -> Option<Key>
        ensures { result ≡ key_of self }
    {
        match self {
            ConfigFault::Missing(key) => Some(key),
            ConfigFault::Kind(key) => Some(key),
            ConfigFault::Range(key) => Some(key),
            _ => None,
        }
    }
}

/// The fault's name, and its key after a space where it has one.
impl fmt::Display for ConfigFault {
    ghost use Rattle.std.specs.Prelude.{Some};
    ghost use Rattle.bully_config.specs.Keys.{fault_text};

    ghost output = { λ fault. Some (fault_text fault) };

    fn fmt<W: fmt::Write>(&self, f: &mut fmt::Formatter<W>) -> fmt::Result {
        f.write_str(self.name())?;
        match self.key() {
            Some(key) => write!(f, " {key}"),
            None => Ok(()),
        }
    }
}

impl std::error::Error for ConfigFault {}

impl From<AllocError> for ConfigFault {
    ghost use Rattle.bully_config.specs.declared.fault.ConfigFault.{ConfigFault};

    ghost from_gives = { λ _ fault. fault ≡ ConfigFault.OutOfMemory };

    fn from(_: AllocError) -> ConfigFault {
        ConfigFault::OutOfMemory
    }
}

impl From<toml::de::Error> for ConfigFault {
    ghost use Rattle.bully_config.specs.Answers.{IsToldAs};

    ghost from_gives = { IsToldAs };

    fn from(error: toml::de::Error) -> ConfigFault {
        if error.is_memory() {
            ConfigFault::OutOfMemory
        } else {
            ConfigFault::Toml
        }
    }
}
