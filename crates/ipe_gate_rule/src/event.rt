/// One atomic step that a history has. A slot of 0 is none.
pub enum Event {
    /// A word of a slot's region is written: the slot, the word's place in the region, the word.
    Store(u64, u64, u64),
    /// The slot becomes the active one, with the switches enforce and success_audit.
    Switch(u64, bool, bool),
    /// The pass of this number claims the active slot.
    Claim(u64),
    /// The pass of this number returns the slot that it holds.
    Return(u64),
    /// The administrator looks how many claims on this slot were returned.
    Look(u64),
}
