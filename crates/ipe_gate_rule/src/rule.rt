use crate::View;
use atomic_table::TableRule;

/// How many words a gate has: ACTIVE, the returns of 63 slots, and 63 regions of 4,096 words.
pub const WORDS: usize = 258_112;

/// There is one history, whose words are the gate's, and of which each seat has seen a beginning.
pub struct GateRule;

impl TableRule<(), View, ()> for GateRule {
    ghost use Rattle.std.specs.Prelude.{[]};
    ghost use Rattle.ipe_gate_rule.specs.declared.view.Role.TheVariants.{Administrator};
    ghost use Rattle.ipe_gate_rule.specs.Rule.{Kept};
    ghost use Rattle.ipe_gate_rule.specs.Views.{view_of};

    ghost holds = { λ _. Kept };

    ghost first = { λ _. view_of (Administrator 0) [] };
}
