ghost use Rattle.ipe_hooks.specs.Law.{RulesAsTheMachine};

use ipe_image::images_are_read_as_themselves;

/// A hook's ruling is that of the pure machine with the gate's state at the hook's own claim. The call does nothing: its
/// contract is the law.
pub fn rules_as_the_machine()
    ensures { RulesAsTheMachine }
{
    images_are_read_as_themselves();
}
