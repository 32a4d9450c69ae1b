ghost use Rattle.ipe_image.specs.Law.{AreOfPolicies, DecideAlike, DecideByOneStatement, ReadAsThemselves};

/// The laws of images: the image of a policy is read as what it was made of, whatever words stand after it, and that
/// decides what the policy decides, by the same statement; whatever words are read as an image are some policy's. The
/// call does nothing: its contract is the law.
pub fn images_are_read_as_themselves()
    ensures read { ReadAsThemselves }
    ensures policies { AreOfPolicies }
    ensures decides { DecideAlike }
    ensures statement { DecideByOneStatement }
{}
