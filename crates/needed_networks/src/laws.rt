ghost use Rattle.needed_networks.specs.Slices.{CountsFollow, SlicesFollow};

/// Networks that change nothing that matters can be left out of a scan.
pub fn slices_follow()
    ensures { SlicesFollow }
{}

/// So can counts beyond their limits.
pub fn counts_follow()
    ensures { CountsFollow }
{}
