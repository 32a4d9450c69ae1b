// A pass and its calls.
ghost use Rattle.std.specs.Prelude.{◌≡◌, ◌<◌, ◌^◌, []};
ghost use Rattle.std.specs.Arc.{arc_value};
ghost use Rattle.ipe_gate_rule.specs.declared.view.Role.TheVariants.{OfPass};
ghost use Rattle.ipe_gate_rule.specs.History.{claims_by, held_by};
ghost use Rattle.ipe_gate_rule.specs.Words.{table_words};

use crate::Slot;
use crate::table::{ENFORCE, EPOCH, GateTable, SLOT, SUCCESS};
use atomic_table::Seat;
use ipe_gate_rule::{ToClaim, ToRead, ToReturn, View};
use ipe_image::WordReader;
use std::alloc::Global;
use std::sync::Arc;

/// A pass of a gate, for one thread at a time.
#[derive(Drop)]
pub struct Pass {
    pub(crate) table: Arc<GateTable, Global>,
    pub(crate) seat: Seat<(), View>,
    pub(crate) number: u32,
    pub(crate) made: u64,
    pub(crate) holding: u32,
    pub ghost seated: { seat.table_id ≡ (arc_value table).shared.table_id },
    pub ghost wide: { (arc_value table).shared.table_id.words ≡ table_words },
    pub ghost plain: { seat.me.1 ≡ [] },
    pub ghost role: { seat.me.0.role ≡ OfPass number },
    pub ghost made_is: { made ≡ claims_by number seat.me.0.seen },
    pub ghost holding_below: { holding < 64 },
    pub ghost holding_is: { holding ≡ held_by number seat.me.0.seen },
}

/// What a claim finds: the epoch and the number of claims before it in this epoch, the slot that is held from now on,
/// or none where none is active, and the two switches.
#[derive(Debug, Drop)]
pub struct Claimed {
    pub epoch: u16,
    pub count: u64,
    pub slot: Option<Slot>,
    pub enforce: bool,
    pub success: bool,
}

impl Pass {
    ghost use Rattle.ipe_gate.specs.Slots.{slot_number};
    ghost use Rattle.ipe_gate.specs.Seats.{calls_made, slot_held};
    ghost use Rattle.ipe_gate.specs.Claims.{IsClaim, IsRead, IsReturn};

    /// The number of the pass's claims.
    pub fn calls(&self) -> u64
        ensures { result ≡ calls_made self.now }
    {
        self.made
    }

    /// The slot that the pass holds, if it holds one.
    pub fn holds(&self) -> Option<Slot>
        ensures { slot_number result ≡ slot_held self.now }
    {
        Slot::of_number(self.holding)
    }

    /// Claims the active slot, by one atomic addition. The pass holds it until it returns it; where none is active it
    /// holds nothing.
    pub fn claim(&mut self) -> Claimed
        requires free { slot_held self.old ≡ 0 }
        requires few { calls_made self.old < 2 ^ 35 }
        ensures { IsClaim self.old self.new result }
    {
        let found = self.table.shared.fetch_add::<ToClaim>(&mut self.seat, 0, 1);
        let number = (found / SLOT % 64) as u32;
        self.made += 1;
        self.holding = number;
        Claimed {
            epoch: (found / EPOCH % 0x1_0000) as u16,
            count: found % EPOCH,
            slot: Slot::of_number(number),
            enforce: found / ENFORCE % 2 == 1,
            success: found / SUCCESS % 2 == 1,
        }
    }

    /// Returns the slot, by one atomic addition.
    pub fn release(&mut self)
        requires { 0 < slot_held self.old }
        ensures { IsReturn self.old self.new }
    {
        let slot = self.holding;
        self.table
            .shared
            .fetch_add::<ToReturn>(&mut self.seat, slot as usize, 1);
        self.holding = 0;
    }

    /// The word at `i`, from 0, of the region of the slot that the pass holds.
    pub fn word(&mut self, i: u32) -> u64
        requires held { 0 < slot_held self.old }
        requires within { i < 4096 }
        ensures { IsRead self.old self.new i result }
    {
        let place = 64 + (self.holding as usize - 1) * 4096 + i as usize;
        self.table.shared.load::<ToRead>(&mut self.seat, place)
    }
}

impl WordReader for Pass {
    ghost use Rattle.std.specs.Prelude.{List, ℕ};
    ghost use Rattle.atomic_table.specs.Seated.{TableId};
    ghost use Rattle.ipe_gate_rule.specs.declared.event.Event.{Event};
    ghost use Rattle.ipe_gate.specs.Seats.{who_reads, words_held};

    ghost words = { words_held };

    ghost Kept = { TableId × ℕ × List Event };

    ghost kept = { who_reads };

    ghost reads = { λ _. 0 };

    fn word(&mut self, i: u32) -> u64 {
        Pass::word(self, i)
    }
}
