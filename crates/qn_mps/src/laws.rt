//! What the networks of overlaps and expectations do not depend on.

ghost use Rattle.qn_mps.specs.SameNetworks.{SameExpectLaw, SameOverlapLaw};

/// The network of an overlap does not depend on how the rows of the conjugates are listed.
pub fn same_overlap_law()
    ensures { SameOverlapLaw }
{}

/// Nor does the network of an expectation.
pub fn same_expect_law()
    ensures { SameExpectLaw }
{}
