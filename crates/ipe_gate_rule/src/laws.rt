ghost use Rattle.ipe_gate_rule.specs.Laws.{ActiveSlotHasImage, ClaimsStandInOrder, ContentsStay, CountsHaveNoGaps, FewSlotsAreOut, OutNeverRises};
ghost use Rattle.ipe_gate_rule.specs.Rule.{Kept, OneHistory};

/// Wherever the rule holds, there is one history for all seats. This call and the others here do nothing: their
/// contracts are laws.
pub fn one_history()
    ensures { (s : _) → Kept s → OneHistory s }
{}

/// The claims of a history stand in the order of their places, no place is twice, and in each epoch their counts are
/// 0, 1, 2 and so on.
pub fn claims_in_order()
    ensures order { ClaimsStandInOrder }
    ensures counts { CountsHaveNoGaps }
{}

/// While nothing is switched, the claims out of a slot that isn't active never rise, and at most as many slots have
/// claims out as there are passes. So where at most 32 of 63 slots are bound and there are at most 30 passes, one that
/// isn't bound has no claim out.
pub fn slots_come_free()
    ensures never_rises { OutNeverRises }
    ensures few { FewSlotsAreOut }
{}

/// The words of a region stay while a pass holds its slot.
pub fn contents_stay()
    ensures { ContentsStay }
{}

/// The region of the active slot begins with the image of a policy.
pub fn active_slot_has_image()
    ensures { ActiveSlotHasImage }
{}
