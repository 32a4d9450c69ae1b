ghost use Rattle.std.specs.Prelude.{◌≡◌, ◌<◌};

/// A slot of a gate, which can hold one image. There are 63.
#[derive(Clone, Copy, Debug, Drop)]
pub struct Slot {
    pub(crate) number: u32,
    pub ghost some: { 0 < number },
    pub ghost below: { number < 64 },
}

impl Slot {
    ghost use Rattle.ipe_gate.specs.Slots.{slot_number};

    /// The slot's number, from 1 to 63.
    pub fn number(self) -> u32
        ensures number { result ≡ self.number }
        ensures some { 0 < result }
        ensures below { result < 64 }
    {
        self.number
    }

    /// The slot of a number, where 0 is none.
    pub(crate) fn of_number(number: u32) -> Option<Slot>
        requires { number < 64 }
        ensures { slot_number result ≡ number }
    {
        if number == 0 {
            None
        } else {
            Some(Slot { number })
        }
    }

    /// The number of a slot, 0 for none.
    pub(crate) fn number_of(slot: Option<Slot>) -> u32
        ensures same { result ≡ slot_number slot }
        ensures below { result < 64 }
    {
        match slot {
            Some(slot) => slot.number,
            None => 0,
        }
    }
}
