//! The tables of the kinds that are built in, as data: sectors, operators and their entries.

ghost use Rattle.std.specs.Prelude.{◌≡◌, ◌≢◌, map, MatchOption, Contains};
ghost use Rattle.qn_sites.specs.Kinds.{KindRow, kinds};
ghost use Rattle.qn_sites.specs.KindRows.{kind_row};

use qn_charge::Factor;

/// An operator of a kind. Its entries other than 0 stand as row, column and value.
pub(crate) struct OpData {
    pub(crate) name: &'static str,
    pub(crate) charge: &'static [i64],
    pub(crate) entries: &'static [(u32, u32, i64)],
}

/// A kind of site: its name, its group, the charges of its values, and its operators but the identity,
/// ascending by name.
pub(crate) struct KindData {
    pub(crate) name: &'static str,
    pub(crate) factors: &'static [Factor],
    pub(crate) charges: &'static [&'static [i64]],
    pub(crate) ops: &'static [OpData],
}

/// Spin 1/2: value 0 is up, 1 is down.
static SPIN_HALF: KindData = KindData {
    name: "spin_half",
    factors: &[Factor::U1 { fermion: false }],
    charges: &[&[1], &[-1]],
    ops: &[
        OpData {
            name: "Sm",
            charge: &[-2],
            entries: &[(1, 0, 1)],
        },
        OpData {
            name: "Sp",
            charge: &[2],
            entries: &[(0, 1, 1)],
        },
        OpData {
            name: "Z",
            charge: &[0],
            entries: &[(0, 0, 1), (1, 1, -1)],
        },
    ],
};

/// A fermion: value 0 is empty, 1 is full.
static FERMION: KindData = KindData {
    name: "fermion",
    factors: &[Factor::U1 { fermion: true }],
    charges: &[&[0], &[1]],
    ops: &[
        OpData {
            name: "C",
            charge: &[-1],
            entries: &[(0, 1, 1)],
        },
        OpData {
            name: "Cdag",
            charge: &[1],
            entries: &[(1, 0, 1)],
        },
        OpData {
            name: "N",
            charge: &[0],
            entries: &[(1, 1, 1)],
        },
    ],
};

/// An electron: value 0 is empty, 1 is up, 2 is down, 3 is both, which is the creation of up applied to
/// the creation of down, applied to the empty value.
static ELECTRON: KindData = KindData {
    name: "electron",
    factors: &[Factor::U1 { fermion: true }, Factor::U1 { fermion: false }],
    charges: &[&[0, 0], &[1, 1], &[1, -1], &[2, 0]],
    ops: &[
        OpData {
            name: "Cdagdn",
            charge: &[1, -1],
            entries: &[(2, 0, 1), (3, 1, -1)],
        },
        OpData {
            name: "Cdagup",
            charge: &[1, 1],
            entries: &[(1, 0, 1), (3, 2, 1)],
        },
        OpData {
            name: "Cdn",
            charge: &[-1, 1],
            entries: &[(0, 2, 1), (1, 3, -1)],
        },
        OpData {
            name: "Cup",
            charge: &[-1, -1],
            entries: &[(0, 1, 1), (2, 3, 1)],
        },
        OpData {
            name: "Ndn",
            charge: &[0, 0],
            entries: &[(2, 2, 1), (3, 3, 1)],
        },
        OpData {
            name: "Nup",
            charge: &[0, 0],
            entries: &[(1, 1, 1), (3, 3, 1)],
        },
    ],
};

/// The kind of this name.
pub(crate) fn find(name: &str) -> Option<&'static KindData>
    ensures { MatchOption result ((k : KindRow) → Contains kinds k → k.name ≢ name.now) (λ k.
        Contains kinds (kind_row k.now) × ((kind_row k.now).name ≡ name.now)) }
{
    if name == SPIN_HALF.name {
        return Some(&SPIN_HALF);
    }
    if name == FERMION.name {
        return Some(&FERMION);
    }
    if name == ELECTRON.name {
        return Some(&ELECTRON);
    }
    None
}
