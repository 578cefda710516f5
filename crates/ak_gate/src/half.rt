//! The two slots.
ghost use Rattle.std.specs.Prelude.{◌≡◌, ◌<◌, ◌+◌, ◌*◌, ◌^◌};
ghost use Rattle.ak_gate.specs.Slots.{other, gate_index, body_index, slot_number};

/// One of the two slots.
#[derive(Clone, Copy, Debug, PartialEq, Eq, Drop)]
pub enum Half {
    First,
    Second,
}

impl Half {
    /// The other slot.
    pub fn other(self) -> Half
        ensures { result ≡ other self }
    {
        match self {
            Half::First => Half::Second,
            Half::Second => Half::First,
        }
    }

    /// The index of its gate in file 0.
    pub(crate) fn gate_index(self) -> u32
        ensures { result ≡ gate_index self }
    {
        match self {
            Half::First => 0,
            Half::Second => 1,
        }
    }

    /// The index of the first block of its body in file 0.
    pub(crate) fn body_index(self, slot: u32) -> u32
        requires { 2 + 2 * slot < 2 ^ 32 }
        ensures { result ≡ body_index slot self }
    {
        match self {
            Half::First => 2,
            Half::Second => 2 + slot,
        }
    }

    /// 0 or 1.
    pub(crate) fn number(self) -> u32
        ensures { result ≡ slot_number self }
    {
        match self {
            Half::First => 0,
            Half::Second => 1,
        }
    }
}
