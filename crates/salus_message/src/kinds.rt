ghost use Rattle.std.specs.Prelude.{◌≡◌, ◌<◌, ◌-◌, slice_get};
ghost use Rattle.salus_message.specs.Kinds.{kind_at, byte_of};

/// What a message is, by its first byte.
#[derive(Clone, Copy, PartialEq, Eq, Debug, Drop)]
pub enum Kind {
    Part,
    Prepared,
    Committed,
    Ask,
    Answer,
    Gather,
    Gathered,
    Stage,
    Staged,
    Switch,
    Switched,
    Dump,
    Dumped,
}

/// The kinds in the order of their bytes, from 1 on.
const KINDS: [Kind; 13] = [
    Kind::Part,
    Kind::Prepared,
    Kind::Committed,
    Kind::Ask,
    Kind::Answer,
    Kind::Gather,
    Kind::Gathered,
    Kind::Stage,
    Kind::Staged,
    Kind::Switch,
    Kind::Switched,
    Kind::Dump,
    Kind::Dumped,
];

fn nth_kind(kinds: &[Kind], number: u8) -> Option<Kind>
    requires { 0 < number }
    ensures { result ≡ slice_get kinds.now (number - 1) }
{
    kinds.get(number as usize - 1).copied()
}

impl Kind {
    /// The kind of a first byte, where there is one.
    pub fn from_byte(byte: u8) -> Option<Kind>
        ensures { result ≡ kind_at byte }
    {
        if byte == 0 {
            return None;
        }
        nth_kind(&KINDS, byte)
    }

    /// The first byte of a message of this kind.
    pub fn byte(self) -> u8
        ensures { result ≡ byte_of self }
    {
        match self {
            Kind::Part => 1,
            Kind::Prepared => 2,
            Kind::Committed => 3,
            Kind::Ask => 4,
            Kind::Answer => 5,
            Kind::Gather => 6,
            Kind::Gathered => 7,
            Kind::Stage => 8,
            Kind::Staged => 9,
            Kind::Switch => 10,
            Kind::Switched => 11,
            Kind::Dump => 12,
            Kind::Dumped => 13,
        }
    }
}
