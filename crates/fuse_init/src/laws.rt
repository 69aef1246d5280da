ghost use Rattle.fuse_init.specs.Sets.{AgreedBits};

/// A flag is agreed on exactly where it is of the profile and was offered. Of the plain one are
/// bits 0, 5, 30 and 39, of the everyday one also 13, 14, 18 and 23.
pub fn agreed_bits()
    ensures { AgreedBits }
{}
