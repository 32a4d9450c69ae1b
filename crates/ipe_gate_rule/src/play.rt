// What each kind of step tells the seat that makes it, and how views are split and joined.
use crate::View;
use atomic_table::{Join, Play, Split};

/// A pass claims the active slot: 1 is added to ACTIVE.
pub struct ToClaim;

impl Play<(), View> for ToClaim {
    ghost use Rattle.ipe_gate_rule.specs.Plays.{Claims};

    ghost then = { Claims };
}

/// A pass returns its slot: 1 is added to the slot's returns.
pub struct ToReturn;

impl Play<(), View> for ToReturn {
    ghost use Rattle.ipe_gate_rule.specs.Plays.{Returns};

    ghost then = { Returns };
}

/// A pass reads a word of the region of the slot that it holds.
pub struct ToRead;

impl Play<(), View> for ToRead {
    ghost use Rattle.ipe_gate_rule.specs.Plays.{Reads};

    ghost then = { Reads };
}

/// The administrator makes a slot active: ACTIVE is exchanged.
pub struct ToSwitch;

impl Play<(), View> for ToSwitch {
    ghost use Rattle.ipe_gate_rule.specs.Plays.{Switches};

    ghost then = { Switches };
}

/// The administrator reads the returns of a slot.
pub struct ToLook;

impl Play<(), View> for ToLook {
    ghost use Rattle.ipe_gate_rule.specs.Plays.{Looks};

    ghost then = { Looks };
}

/// The administrator writes a word of a region.
pub struct ToStore;

impl Play<(), View> for ToStore {
    ghost use Rattle.ipe_gate_rule.specs.Plays.{Stores};

    ghost then = { Stores };
}

/// A seat that took in another reads ACTIVE, and so learns that what both had seen are beginnings of one history.
pub struct ToCatchUp;

impl Play<(), View> for ToCatchUp {
    ghost use Rattle.ipe_gate_rule.specs.Plays.{CatchesUp};

    ghost then = { CatchesUp };
}

/// The seat of a new pass is split off the administrator's.
pub struct NewPass;

impl Split<View> for NewPass {
    ghost use Rattle.ipe_gate_rule.specs.Cuts.{rest_view, new_view};

    ghost left = { rest_view };

    ghost right = { new_view };
}

/// What a seat has seen is split off it, to tell another seat of it.
pub struct Tale;

impl Split<View> for Tale {
    ghost use Rattle.ipe_gate_rule.specs.Cuts.{teller, tale};

    ghost left = { teller };

    ghost right = { tale };
}

impl Join<View> for Tale {
    ghost use Rattle.ipe_gate_rule.specs.Cuts.{hearer, spent_view};

    ghost both = { hearer };

    ghost spent = { spent_view };
}

/// The administrator takes in a pass.
pub struct TakeIn;

impl Join<View> for TakeIn {
    ghost use Rattle.ipe_gate_rule.specs.Cuts.{taker, spent_view};

    ghost both = { taker };

    ghost spent = { spent_view };
}
