//! Steps that fuse or split by a combiner.

ghost use Rattle.qn_net.specs.FuseSteps.{FuseEntryLaw, FuseStepLaw, MemberTablesLaw, NeverFirstLaw, PlacesSignLaw, RolesLaw};

/// The sums of magnitudes of a step that fuses or splits have one summand at most, which is an entry of the other
/// tensor.
pub fn fuse_step_law()
    ensures { FuseStepLaw }
{}

/// A group that has the role of a table is one that no step has touched.
pub fn roles_law()
    ensures { RolesLaw }
{}

/// An entry of a step that fuses or splits is its one summand, at the values that match.
pub fn fuse_entry_law()
    ensures { FuseEntryLaw }
{}

/// The sign of a summand by the places of the legs.
pub fn places_sign_law()
    ensures { PlacesSignLaw }
{}

/// Members that are tables are those of their combiners.
pub fn member_tables_law()
    ensures { MemberTablesLaw }
{}

/// A step that fuses or splits never passes before another step did.
pub fn never_first_law()
    ensures { NeverFirstLaw }
{}
