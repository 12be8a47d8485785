//! The labels of the legs of chains in their networks.

ghost use Rattle.std.specs.Prelude.{◌≡◌, ◌<◌, ◌≤◌, ◌++◌, map, IfOk, OnOk};
ghost use Rattle.qn_braket.specs.ChainLabels.{left_label, right_label};
ghost use Rattle.qn_mps.specs.Labels.{label, labels_at};

use std::alloc::{AllocError, Global};

/// A kind of leg of a chain in a network. Its legs have one label on each site.
#[derive(Clone, Copy, Debug, PartialEq, Eq)]
pub(crate) enum Line {
    /// The links of a chain's own network: 1, 2, ..
    OwnLink,
    /// The legs s of a state's own network, or s' of an operator's: -1, -2, ..
    OwnUpper,
    /// The legs s of an operator's own network, whose last site has this number, from 0: they go on from s', from the
    /// last site to the first.
    OwnLower { last: u8 },
    /// Legs of a network of two or three chains: this label on the first site, and so many more from site to site.
    Shared { step: u8, first: u8 },
}

impl Line {
    /// The label at a site, counted from 0.
    fn at(self, site: usize) -> i64
        requires { site ≤ 64 }
        ensures { result ≡ label self site }
    {
        match self {
            Line::OwnLink => 1 + site as i64,
            Line::OwnUpper => -1 - site as i64,
            Line::OwnLower { last } => {
                let back = (2 * usize::from(last) + 1).saturating_sub(site);
                -1 - back as i64
            }
            Line::Shared { step, first } => {
                let label = usize::from(step) * site + usize::from(first);
                label as i64
            }
        }
    }
}

/// Adds the label of the link left of a site. The first site has none.
fn add_left(labels: &mut Vec<i64>, link: Line, site: usize) -> Result<(), AllocError>
    requires { site < 64 }
    ensures { OnOk result (labels.new.items ≡ labels.old.items ++ left_label (label link) site) }
{
    if site > 0 {
        labels.push(link.at(site - 1))?;
    }
    Ok(())
}

/// Adds the label of the link right of a site. The last site has none.
fn add_right(labels: &mut Vec<i64>, link: Line, count: usize, site: usize) -> Result<(), AllocError>
    requires { site < 64 }
    ensures { OnOk result (labels.new.items ≡ labels.old.items ++ right_label (label link) count site) }
{
    if site + 1 != count {
        labels.push(link.at(site))?;
    }
    Ok(())
}

/// Adds the labels of the legs of a site.
fn add_own(labels: &mut Vec<i64>, own: &[Line], site: usize) -> Result<(), AllocError>
    requires { site < 64 }
    ensures { OnOk result (labels.new.items ≡ labels.old.items ++ map (λ l. label l site) own.now) }
{
    for line in own {
        labels.push(line.at(site))?;
    }
    Ok(())
}

/// The labels of a tensor on a site, counted from 0, of so many: that of the link left of it, those of the site, that
/// of the link right of it.
pub(crate) fn labels_at(
    alloc: Global,
    own: &[Line],
    link: Line,
    count: usize,
    site: usize,
) -> Result<Vec<i64>, AllocError>
    requires { site < 64 }
    ensures { IfOk result (λ v. v.items ≡ labels_at own.now link count site) }
{
    let mut labels = Vec::with_capacity(alloc, 4)?;
    add_left(&mut labels, link, site)?;
    add_own(&mut labels, own, site)?;
    add_right(&mut labels, link, count, site)?;
    Ok(labels)
}
