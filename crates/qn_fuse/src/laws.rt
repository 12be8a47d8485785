//! Fusing and splitting are inverse to one another, and contractions with the combiner's tables.
ghost use Rattle.qn_fuse.specs.Contractions.{FuseContractionLaw, SplitContractionLaw};
ghost use Rattle.qn_fuse.specs.Fused.{FuseAfterSplitLaw, SplitAfterFuseLaw};

/// To split what was fused gives it back.
pub fn split_after_fuse_law()
    ensures { SplitAfterFuseLaw }
{}

/// To fuse what was split gives it back.
pub fn fuse_after_split_law()
    ensures { FuseAfterSplitLaw }
{}

/// Fusing is the contraction with the fuse table, the fused leg standing in the place of the legs.
pub fn fuse_contraction_law()
    ensures { FuseContractionLaw }
{}

/// Splitting is the contraction with the split table, the legs standing in the place of the fused leg.
pub fn split_contraction_law()
    ensures { SplitContractionLaw }
{}
