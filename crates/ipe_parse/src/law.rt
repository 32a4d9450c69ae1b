ghost use Rattle.std.specs.Prelude.{◌≡◌, ◌≤◌, ◌⊎◌, ℕ, List, Ok, length};
ghost use Rattle.ipe_policy.specs.Policy.{PolicyParts};
ghost use Rattle.ipe_policy.specs.Spelling.{policy_text};
ghost use Rattle.ipe_parse.specs.declared.error.BadText.{BadText};
ghost use Rattle.ipe_parse.specs.FirstFault.{TheReaderNamesTheFirstFault};
ghost use Rattle.ipe_parse.specs.Reading.{reading};
ghost use Rattle.ipe_parse.specs.Reads.{HasFault, Reads, ReadsAsOne};

use ipe_policy::Policy;

/// A text of at most 1,048,576 bytes either reads as exactly one policy or has a first fault, never both. What a text
/// reads as, of whatever length, is what the definition `reading` gives by examining the lines from the top; up to that
/// length, whatever `reading` gives it reads as.
pub fn reads_or_has_a_fault()
    ensures reads { (text : List ℕ) (policy : PolicyParts) → Reads text policy → reading text ≡ Ok policy }
    ensures read { (text : List ℕ) (policy : PolicyParts) → length text ≤ 1048576 → reading text ≡ Ok policy →
        Reads text policy }
    ensures one_or_fault { (text : List ℕ) → length text ≤ 1048576 →
        ((policy : PolicyParts) × ReadsAsOne text policy) ⊎ ((fault : BadText) × HasFault text fault) }
{}

/// The fault that the definition `reading` names is the first fault by the table of checks: the lines before have none, and
/// the line fails this check of its row and none before it; or all lines are free of faults, and this is the first operation
/// without a default.
pub fn names_the_first_fault()
    ensures { TheReaderNamesTheFirstFault }
{}

/// What is printed of a policy is read as that policy: `parse` of the printed text answers it, where the text is not too
/// long to be parsed.
pub fn printed_is_read(policy: &Policy)
    ensures { reading (policy_text policy.now) ≡ Ok policy.now }
{
    // The law stands on what the types keep, which is known of parts that are looked at.
    let _name = policy.name.as_slice();
    let _major = policy.version.major;
    let _minor = policy.version.minor;
    let _rev = policy.version.rev;
}
