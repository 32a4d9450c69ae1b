// How seats tell each other what they have seen, and the end of a gate.
ghost use Rattle.std.specs.Prelude.{◌≡◌, ◌≢◌, ℕ, length, slice_get, Some, []};
ghost use Rattle.ipe_gate_rule.specs.declared.view.Role.TheVariants.{Nobody};
ghost use Rattle.ipe_gate_rule.specs.Views.{view_of};
ghost use Rattle.ipe_gate.specs.Seats.{SameAdmin, SamePass, admin_gate, admin_seen, gate_of, passes_made, seen, slot_held};
ghost use Rattle.ipe_gate.specs.Meeting.{AdminHears, AreAllPasses, IsClosing, IsMeeting, PassHears};

use crate::table::EPOCH;
use crate::{GateAdmin, Pass};
use atomic_table::Seat;
use ipe_gate_rule::{TakeIn, Tale, ToCatchUp, View};

/// A gate that is closed: its last epoch, and how many claims were made in it. Contracts see the whole history in it.
#[derive(Drop)]
pub struct Closed {
    pub epoch: u16,
    pub count: u64,
    pub(crate) seat: Seat<(), View>,
}

impl GateAdmin {
    /// Afterwards the administrator and the pass have each seen all that either had seen.
    pub fn meet(&mut self, pass: &mut Pass)
        requires gate { gate_of pass.old ≡ admin_gate self.old }
        requires free { slot_held pass.old ≡ 0 }
        ensures { IsMeeting pass.old pass.new self.old self.new }
    {
        let tale = self.tell();
        pass.hear(tale);
        let answer = pass.tell();
        self.hear(answer);
    }

    fn tell(&mut self) -> Seat<(), View>
        ensures tale { (result.table_id ≡ admin_gate self.old) × (result.me ≡ (view_of Nobody (admin_seen self.old), [])) }
        ensures same { SameAdmin self.old self.new × (admin_seen self.new ≡ admin_seen self.old) }
    {
        self.table.shared.split_seat::<Tale>(&mut self.seat)
    }

    fn hear(&mut self, tale: Seat<(), View>)
        requires gate { tale.table_id ≡ admin_gate self.old }
        requires plain { tale.me.1 ≡ [] }
        ensures { AdminHears self.old self.new tale.me.0.seen }
    {
        self.table.shared.join_seat::<Tale>(&mut self.seat, tale);
        self.table.shared.load::<ToCatchUp>(&mut self.seat, 0);
    }

    /// Ends the gate, with all its passes in the order of their numbers, none of which holds a slot.
    pub fn close(self, mut passes: Vec<Pass>) -> Closed
        requires { AreAllPasses self passes.items }
        ensures { IsClosing self passes.items result }
    {
        let GateAdmin {
            table,
            mut seat,
            epoch,
            passes: _,
            active: _,
            sums: _,
            bound: _,
        } = self;
        while let Some(pass) = passes.pop() {
            let Pass {
                seat: theirs,
                table: _,
                number: _,
                made: _,
                holding: _,
            } = pass;
            table.shared.join_seat::<TakeIn>(&mut seat, theirs);
        }
        let found = table.shared.load::<ToCatchUp>(&mut seat, 0);
        Closed {
            epoch,
            count: found % EPOCH,
            seat,
        }
    }
}

impl Pass {
    fn tell(&mut self) -> Seat<(), View>
        ensures tale { (result.table_id ≡ gate_of self.old) × (result.me ≡ (view_of Nobody (seen self.old), [])) }
        ensures same { SamePass self.old self.new × (seen self.new ≡ seen self.old) }
    {
        self.table.shared.split_seat::<Tale>(&mut self.seat)
    }

    fn hear(&mut self, tale: Seat<(), View>)
        requires gate { tale.table_id ≡ gate_of self.old }
        requires plain { tale.me.1 ≡ [] }
        ensures { PassHears self.old self.new tale.me.0.seen }
    {
        self.table.shared.join_seat::<Tale>(&mut self.seat, tale);
        self.table.shared.load::<ToCatchUp>(&mut self.seat, 0);
    }
}
