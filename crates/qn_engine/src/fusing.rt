//! A step that fuses or splits: no multiplication, only entries that are looked up.

ghost use Rattle.std.specs.Prelude.{◌≡◌, ◌<◌, ◌≤◌, ◌+◌, ◌^◌, ◌==◌, ◌&&◌, ◌++◌, ◌∷◌, [], ℤ, List, true, false, cond, length, map, take, slice_index_or, IfOk, OnOk};
ghost use Rattle.std.specs.List.{All};
ghost use Rattle.qn_sign.specs.Sign.{xor, exchange_sign};
ghost use Rattle.qn_sign.specs.Positions.{positions, is_odd_at};
ghost use Rattle.qn_charge.specs.declared.factor.Factor.{Factor};
ghost use Rattle.qn_charge.specs.Charges.{parity};
ghost use Rattle.qn_index.specs.Legs.{LegValue, total, parity_at};
ghost use Rattle.qn_index.specs.Places.{IsValues};
ghost use Rattle.qn_index.specs.Extents.{IsWithinLimits};
ghost use Rattle.qn_value.specs.Networks.{same_bool, same_end};
ghost use Rattle.qn_value.specs.Labels.{is_inward};
ghost use Rattle.qn_value.specs.Local.{parities};
ghost use Rattle.qn_block.specs.Combiners.{fused_sectors};
ghost use Rattle.qn_block.specs.Refusals.{IsShapeFault};
ghost use Rattle.qn_block.specs.Tables.{odd_inward, is_inward as is_in_arrow};
ghost use Rattle.qn_engine.specs.Fusing.{PairAt, made_by, IsFusion, IsFused, table, word_legs, word_labels, ends_of, end_place, line_places, places_left, legs_left, source_of, next_after, sources_from, source_value, IsSourceIn, table_left, IsFuseMatch, IsSplitMatch, IsMatch, IsWiring, FusionValue};

use crate::labels::place_of_label;
use qn_block::{BlockFault, BlockTensor, Combiner};
use qn_charge::{Abelian, Group};
use qn_gauss::Gauss;
use qn_index::{Dir, Leg};
use qn_plan::is_listed;
use qn_sign::exchange;
use qn_strides::{legs_at, with_sign};
use qn_value::plain::LineEnd;
use std::alloc::{AllocError, Global};
use std::marker::Model;

/// The table of a combiner and the tensor that it fuses or splits, with their labels.
#[derive(Drop)]
pub(crate) struct Fusion<'a, const K: usize> {
    pub combiner: &'a Combiner<K>,
    /// Whether the table is the fuse table, and else the split table.
    pub is_fuse: bool,
    /// Whether the table is the earlier one of the two.
    pub is_first: bool,
    pub table_labels: &'a [i64],
    pub tensor: &'a BlockTensor<K>,
    pub tensor_labels: &'a [i64],
    /// The labels that the step sums.
    pub summed: &'a [i64],
    /// Whether what stands between the two is odd.
    pub between_odd: bool,
}

impl<'a, const K: usize> Model for Fusion<'a, K> {
    ghost use Rattle.qn_engine.specs.Fusing.{FusionValue};

    ghost Value = { FusionValue };

    ghost view = { λ f. record { combiner = f.combiner.now; is_fuse = f.is_fuse; is_first = f.is_first; table_labels = f.table_labels.now; tensor = f.tensor.now; tensor_labels = f.tensor_labels.now; summed = f.summed.now; between_odd = f.between_odd } };
}

/// Where the value of a leg of the tensor comes from.
#[derive(Clone, Copy)]
pub(crate) enum Source {
    /// The table's leg at this place, which is on the same line.
    Table(usize),
    /// This one of the values that are given for the legs that the tensor leaves.
    Left(usize),
}

/// How values and signs go along the legs of both tensors, of which those of the earlier one come first.
#[derive(Drop)]
struct Wiring<const K: usize> {
    legs: Vec<Leg<K>>,
    /// For each summed label the places of its inward and of its outward leg, and then the places of the legs that are left.
    order: Vec<usize>,
    /// For each leg of the tensor where its value comes from.
    sources: Vec<Source>,
    /// Whether a sign comes from moving the tensor past what stands between.
    past: bool,
}

/// Whether one of two holds, and not the other.
fn differ(a: bool, b: bool) -> bool
    ensures { result ≡ xor a b }
{
    a != b
}

/// Whether a value of a leg is odd.
fn is_odd<const K: usize>(group: &Group<K>, leg: &Leg<K>, value: u32) -> bool
    requires { value < total leg.now.sectors }
    ensures { result ≡ parity_at group.now leg.now.sectors value }
{
    let (sector, _) = leg.at(value);
    group.parity(leg.charge(sector))
}

/// Whether the leg is In and its value is odd.
fn is_odd_inward<const K: usize>(group: &Group<K>, leg: &Leg<K>, value: u32) -> bool
    requires { value < total leg.now.sectors }
    ensures { result ≡ (is_in_arrow leg.now.arrow && parity_at group.now leg.now.sectors value) }
{
    match leg.dir() {
        Dir::Out => false,
        Dir::In => is_odd(group, leg, value),
    }
}

/// Whether an odd number of the In legs have odd values.
fn odd_inward<const K: usize>(group: &Group<K>, legs: &[Leg<K>], values: &[u32]) -> bool
    requires { IsValues legs.now values.now }
    ensures { result ≡ odd_inward group.now legs.now values.now }
{
    let mut odd = false;
    for i in (0..legs.len()).rev() {
        odd = differ(is_odd_inward(group, &legs[i], values[i]), odd);
    }
    odd
}

/// Adds equal legs.
fn append_legs<const K: usize>(legs: &[Leg<K>], out: &mut Vec<Leg<K>>) -> Result<(), AllocError>
    ensures { OnOk result (out.new.items ≡ out.old.items ++ legs.now) }
{
    for leg in legs {
        out.push(leg.copy()?)?;
    }
    Ok(())
}

/// The legs of two tensors, one after the other.
fn joined_legs<const K: usize>(
    alloc: Global,
    first: &[Leg<K>],
    second: &[Leg<K>],
) -> Result<Vec<Leg<K>>, AllocError>
    ensures { IfOk result (λ v. v.items ≡ first.now ++ second.now) }
{
    let mut legs = Vec::new(alloc);
    append_legs(first, &mut legs)?;
    append_legs(second, &mut legs)?;
    Ok(legs)
}

/// The labels of two tensors, one after the other.
fn joined_labels(alloc: Global, first: &[i64], second: &[i64]) -> Result<Vec<i64>, AllocError>
    ensures { IfOk result (λ v. v.items ≡ first.now ++ second.now) }
{
    let mut labels = Vec::from_slice(alloc, first)?;
    labels.extend_from_slice(second)?;
    Ok(labels)
}

impl<'a, const K: usize> Fusion<'a, K> {
    /// The legs of the table.
    fn table_legs(&self) -> Result<Vec<Leg<K>>, AllocError>
        ensures { IfOk result (λ v. v.items ≡ (table self.now).tensor.legs) }
    {
        match self.is_fuse {
            true => self.combiner.fuse_legs(),
            false => self.combiner.split_legs(),
        }
    }

    /// The legs of both tensors, those of the earlier one first.
    fn word_legs(&self, alloc: Global) -> Result<Vec<Leg<K>>, AllocError>
        ensures { IfOk result (λ v. v.items ≡ word_legs self.now) }
    {
        let legs = self.table_legs()?;
        match self.is_first {
            true => joined_legs(alloc, &legs, self.tensor.legs()),
            false => joined_legs(alloc, self.tensor.legs(), &legs),
        }
    }

    /// The labels of both tensors, those of the earlier one first.
    fn word_labels(&self, alloc: Global) -> Result<Vec<i64>, AllocError>
        ensures { IfOk result (λ v. v.items ≡ word_labels self.now) }
    {
        match self.is_first {
            true => joined_labels(alloc, self.table_labels, self.tensor_labels),
            false => joined_labels(alloc, self.tensor_labels, self.table_labels),
        }
    }

    /// Whether a sign comes from moving the tensor past what stands between.
    fn is_past(&self) -> bool
        ensures { result ≡ (self.now.is_first && (self.now.between_odd && parity self.now.tensor.group self.now.tensor.flux)) }
    {
        let tensor = self.tensor;
        self.is_first && (self.between_odd && tensor.group().parity(tensor.flux()))
    }
}

/// Which end of a line a leg is.
fn end_of(label: i64, dir: Dir) -> LineEnd
    ensures { result ≡ record { label = label; inward = is_inward dir } }
{
    LineEnd {
        label,
        inward: dir == Dir::In,
    }
}

/// Which ends of which lines the legs are.
fn ends_of<const K: usize>(
    alloc: Global,
    legs: &[Leg<K>],
    labels: &[i64],
) -> Result<Vec<LineEnd>, AllocError>
    requires { length legs.now ≡ length labels.now }
    ensures { IfOk result (λ v. v.items ≡ ends_of legs.now labels.now) }
{
    let mut ends = Vec::with_capacity(alloc, legs.len())?;
    for i in 0..legs.len() {
        ends.push(end_of(labels[i], legs[i].dir()))?;
    }
    Ok(ends)
}

fn is_same_arrow(a: bool, b: bool) -> bool
    ensures { result ≡ same_bool a b }
{
    if a { b } else { !b }
}

/// Whether two legs are the same end of one line.
fn is_same(a: LineEnd, b: LineEnd) -> bool
    ensures { result ≡ same_end a b }
{
    a.label == b.label && is_same_arrow(a.inward, b.inward)
}

/// The place of an end, or the number of ends.
fn place_of(ends: &[LineEnd], end: LineEnd) -> usize
    ensures place { result ≡ end_place end ends.now }
    ensures within { result ≤ length ends.now }
{
    match ends {
        [] => 0,
        [e, rest @ ..] => {
            if is_same(end, *e) {
                0
            } else {
                1 + place_of(rest, end)
            }
        }
    }
}

/// Adds the places of the inward and of the outward end of a line.
fn add_line(ends: &[LineEnd], label: i64, places: &mut Vec<usize>) -> Result<(), AllocError>
    ensures { OnOk result (places.new.items ≡ places.old.items ++ (end_place (record { label = label; inward = true }) ends.now ∷ end_place (record { label = label; inward = false }) ends.now ∷ [])) }
{
    let inward = LineEnd {
        label,
        inward: true,
    };
    let outward = LineEnd {
        label,
        inward: false,
    };
    places.push(place_of(ends, inward))?;
    places.push(place_of(ends, outward))?;
    Ok(())
}

/// For each label the places of its inward and of its outward leg.
fn line_places(alloc: Global, ends: &[LineEnd], labels: &[i64]) -> Result<Vec<usize>, AllocError>
    ensures { IfOk result (λ v. v.items ≡ line_places ends.now labels.now) }
{
    let mut places = Vec::new(alloc);
    let mut rest = labels;
    while let [label, tail @ ..] = rest {
        add_line(ends, *label, &mut places)?;
        rest = tail;
    }
    Ok(places)
}

/// Adds a place unless its leg is summed.
fn keep_place(place: usize, is_summed: bool, out: &mut Vec<usize>) -> Result<(), AllocError>
    ensures { OnOk result (out.new.items ≡ cond is_summed out.old.items (out.old.items ++ place ∷ [])) }
{
    if !is_summed {
        out.push(place)?;
    }
    Ok(())
}

/// The places of the legs that are left.
fn places_left(alloc: Global, labels: &[i64], summed: &[i64]) -> Result<Vec<usize>, AllocError>
    ensures { IfOk result (λ v. v.items ≡ places_left summed.now 0 labels.now) }
{
    let mut places = Vec::new(alloc);
    for i in 0..labels.len() {
        keep_place(i, is_listed(summed, labels[i]), &mut places)?;
    }
    Ok(places)
}

/// Where the value of a leg of the tensor comes from, of which so many take values that are given.
fn source_of(table: &[i64], summed: &[i64], next: usize, label: i64) -> Source
    ensures { result ≡ source_of table.now summed.now next label }
{
    if is_listed(summed, label) {
        Source::Table(place_of_label(table, label))
    } else {
        Source::Left(next)
    }
}

/// How many of the values that are given are taken after this leg.
fn next_after(source: Source, next: usize) -> usize
    requires { next < 2 ^ 63 }
    ensures { result ≡ next_after source next }
{
    match source {
        Source::Table(_) => next,
        Source::Left(_) => next + 1,
    }
}

/// For each leg of the tensor where its value comes from.
fn sources_of(
    alloc: Global,
    table: &[i64],
    summed: &[i64],
    labels: &[i64],
) -> Result<Vec<Source>, AllocError>
    ensures { IfOk result (λ v. v.items ≡ sources_from table.now summed.now 0 labels.now) }
{
    let mut sources = Vec::new(alloc);
    let mut next = 0usize;
    let mut rest = labels;
    while let [label, tail @ ..] = rest {
        let source = source_of(table, summed, next, *label);
        sources.push(source)?;
        next = next_after(source, next);
        rest = tail;
    }
    Ok(sources)
}

/// The values of the fuse table's legs that match a value of the fused leg, and whether its entry there is -1.
fn fuse_values<const K: usize>(combiner: &Combiner<K>, value: u32) -> ([u32; 64], bool)
    requires { value < total (fused_sectors combiner.now.group combiner.now.legs combiner.now.arrow) }
    ensures { IsFuseMatch combiner.now (value ∷ []) (take (length combiner.now.legs + 1) result.0) result.1 }
{
    combiner.known();
    let legs = combiner.legs();
    let n = legs.len();
    let all = combiner.values_of(value);
    let found = &all[..n];
    let mut values = [0u32; 64];
    values[0] = value;
    for i in 0..n {
        values[i + 1] = found[n - 1 - i];
    }
    (values, odd_inward(combiner.group(), legs, found))
}

/// The values of the split table's legs that match values of the legs, and whether its entry there is -1.
fn split_values<const K: usize>(combiner: &Combiner<K>, left: &[u32]) -> ([u32; 64], bool)
    requires { IsValues combiner.now.legs left.now }
    ensures { IsSplitMatch combiner.now left.now (take (length combiner.now.legs + 1) result.0) result.1 }
{
    combiner.known();
    let n = combiner.legs().len();
    let value = combiner.value_of(left);
    let mut values = [0u32; 64];
    for i in 0..n {
        values[i] = left[i];
    }
    values[n] = value;
    (
        values,
        is_odd_inward(combiner.group(), combiner.fused(), value),
    )
}

/// The values of the table's legs that match those of its legs that are left, and whether its entry there is -1.
fn table_values<const K: usize>(
    combiner: &Combiner<K>,
    is_fuse: bool,
    left: &[u32],
) -> ([u32; 64], bool)
    requires { IsValues (table_left combiner.now is_fuse) left.now }
    ensures { IsMatch combiner.now is_fuse left.now (take (length combiner.now.legs + 1) result.0) result.1 }
{
    match is_fuse {
        true => fuse_values(combiner, left[0]),
        false => split_values(combiner, left),
    }
}

/// The value that comes from a source.
fn source_value(source: Source, table: &[u32], left: &[u32]) -> u32
    requires { IsSourceIn (length table.now) (length left.now) source }
    ensures { result ≡ source_value table.now left.now source }
{
    match source {
        Source::Table(place) => table[place],
        Source::Left(place) => left[place],
    }
}

/// The values of the tensor's legs.
fn tensor_values(sources: &[Source], table: &[u32], left: &[u32]) -> [u32; 64]
    requires few { length sources.now ≤ 64 }
    requires within { All (IsSourceIn (length table.now) (length left.now)) sources.now }
    ensures { take (length sources.now) result ≡ map (source_value table.now left.now) sources.now }
{
    let mut values = [0u32; 64];
    for i in 0..sources.len() {
        values[i] = source_value(sources[i], table, left);
    }
    values
}

/// The value at a place of two lists, one after the other.
fn value_in(first: &[u32], second: &[u32], place: usize) -> u32
    requires { place < length first.now + length second.now }
    ensures { result ≡ slice_index_or (first.now ++ second.now) place 0 }
{
    if place < first.len() {
        first[place]
    } else {
        second[place - first.len()]
    }
}

/// Whether the values of the legs of two tensors, one after the other, are odd.
fn odd_values<const K: usize>(
    group: &Group<K>,
    legs: &[Leg<K>],
    first: &[u32],
    second: &[u32],
) -> [bool; 128]
    requires few { length legs.now ≤ 128 }
    requires values { IsValues legs.now (first.now ++ second.now) }
    ensures { take (length legs.now) result ≡ parities group.now legs.now (first.now ++ second.now) }
{
    let mut odds = [false; 128];
    for i in 0..legs.len() {
        odds[i] = is_odd(group, &legs[i], value_in(first, second, i));
    }
    odds
}

/// The sign of bringing the legs into their order.
fn order_sign<const K: usize>(
    group: &Group<K>,
    wiring: &Wiring<K>,
    first: &[u32],
    second: &[u32],
) -> bool
    requires few { length wiring.now.legs.items ≤ 128 }
    requires order { All (λ i. i < length wiring.now.legs.items) wiring.now.order.items }
    requires values { IsValues wiring.now.legs.items (first.now ++ second.now) }
    ensures { result ≡ exchange_sign ◌==◌ (is_odd_at (parities group.now wiring.now.legs.items (first.now ++ second.now))) (positions (length wiring.now.legs.items)) wiring.now.order.items }
{
    let legs = wiring.legs.as_slice();
    let odds = odd_values(group, legs, first, second);
    exchange(&odds[..legs.len()], &wiring.order)
}

/// The values that are given for the legs that the table leaves, and for those that the tensor leaves.
fn parts<'a>(values: &'a [u32], count: usize, is_first: bool) -> (&'a [u32], &'a [u32])
    requires { count ≤ length values.now }
    ensures whole { cond is_first (result.0.now ++ result.1.now) (result.1.now ++ result.0.now) ≡ values.now }
    ensures count { length result.0.now ≡ count }
{
    match is_first {
        true => values.split_at(count),
        false => {
            let (rest, left) = values.split_at(values.len() - count);
            (left, rest)
        }
    }
}

/// How many legs the table leaves.
fn count_left<const K: usize>(combiner: &Combiner<K>, is_fuse: bool) -> usize
    ensures { result ≡ length (table_left combiner.now is_fuse) }
{
    match is_fuse {
        true => 1,
        false => combiner.legs().len(),
    }
}

/// The sign of bringing the legs into their order, at values of the table's and of the tensor's legs.
fn sign_of<const K: usize>(
    fusion: &Fusion<K>,
    wiring: &Wiring<K>,
    table: &[u32],
    tensor: &[u32],
) -> bool
    requires few { length wiring.now.legs.items ≤ 128 }
    requires order { All (λ i. i < length wiring.now.legs.items) wiring.now.order.items }
    requires values { IsValues wiring.now.legs.items (cond fusion.now.is_first (table.now ++ tensor.now) (tensor.now ++ table.now)) }
    ensures { result ≡ exchange_sign ◌==◌ (is_odd_at (parities fusion.now.tensor.group wiring.now.legs.items (cond fusion.now.is_first (table.now ++ tensor.now) (tensor.now ++ table.now)))) (positions (length wiring.now.legs.items)) wiring.now.order.items }
{
    let tensor_of = fusion.tensor;
    match fusion.is_first {
        true => order_sign(tensor_of.group(), wiring, table, tensor),
        false => order_sign(tensor_of.group(), wiring, tensor, table),
    }
}

/// An entry of the result: the tensor's entry where the table's is not 0, or its negative.
fn entry_at<const K: usize>(fusion: &Fusion<K>, wiring: &Wiring<K>, values: &[u32]) -> Gauss
    requires wiring { IsWiring fusion.now wiring.now.legs.items wiring.now.order.items wiring.now.sources.items wiring.now.past }
    requires step { (k : PairAt) × IsFusion fusion.now k }
    requires values { IsValues (legs_left fusion.now) values.now }
    ensures { (k : PairAt) → IsFusion fusion.now k → result ≡ (made_by k).node.entry values.now }
{
    let combiner = fusion.combiner;
    let tensor = fusion.tensor;
    combiner.known();
    tensor.known();
    let count = count_left(combiner, fusion.is_fuse);
    let (left, rest) = parts(values, count, fusion.is_first);
    let (all, minus) = table_values(combiner, fusion.is_fuse, left);
    let of_table = &all[..combiner.legs().len() + 1];
    let sources = wiring.sources.as_slice();
    let others = tensor_values(sources, of_table, rest);
    let of_tensor = &others[..sources.len()];
    let sign = sign_of(fusion, wiring, of_table, of_tensor);
    let entry = tensor.entry(of_tensor);
    with_sign(differ(wiring.past, differ(sign, minus)), entry)
}

/// The step made ready, and the legs of its result.
fn wiring_of<const K: usize>(
    alloc: Global,
    fusion: &Fusion<K>,
) -> Result<(Wiring<K>, Vec<Leg<K>>), AllocError>
    requires { (k : PairAt) × IsFusion fusion.now k }
    ensures wiring { IfOk result (λ r. IsWiring fusion.now r.0.legs.items r.0.order.items r.0.sources.items r.0.past) }
    ensures legs { IfOk result (λ r. r.1.items ≡ legs_left fusion.now) }
{
    let labels = fusion.word_labels(alloc)?;
    let legs = fusion.word_legs(alloc)?;
    let ends = ends_of(alloc, &legs, &labels)?;
    let mut order = line_places(alloc, &ends, fusion.summed)?;
    let left = places_left(alloc, &labels, fusion.summed)?;
    order.extend_from_slice(&left)?;
    let sources = sources_of(
        alloc,
        fusion.table_labels,
        fusion.summed,
        fusion.tensor_labels,
    )?;
    let left_legs = legs_at(alloc, &legs, &left)?;
    let past = fusion.is_past();
    Ok((
        Wiring {
            legs,
            order,
            sources,
            past,
        },
        left_legs,
    ))
}

/// Of a shape within the limits the only fault is want of memory.
fn memory_of(fault: BlockFault) -> AllocError
    requires { (fs : List Factor) × (ls : List LegValue) × (q : List ℤ) × IsWithinLimits fs ls q × IsShapeFault fs ls q fault }
{
    match fault {
        BlockFault::Memory => AllocError,
        _ => unreachable!(),
    }
}

/// What the step makes. It takes no multiplication.
pub(crate) fn fused<const K: usize>(
    alloc: Global,
    fusion: &Fusion<K>,
) -> Result<BlockTensor<K>, AllocError>
    requires { (k : PairAt) × IsFusion fusion.now k }
    ensures { IfOk result (λ r. (k : PairAt) → IsFusion fusion.now k → IsFused fusion.now k r) }
{
    let combiner = fusion.combiner;
    let tensor = fusion.tensor;
    combiner.known();
    tensor.known();
    let (wiring, legs) = wiring_of(alloc, fusion)?;
    let entry = |values: &[u32]| -> Gauss
        requires wiring { IsWiring fusion.now wiring.legs.items wiring.order.items wiring.sources.items wiring.past }
        requires step { (k : PairAt) × IsFusion fusion.now k }
        requires values { IsValues (legs_left fusion.now) values.now }
        ensures { (k : PairAt) → IsFusion fusion.entry.now k → result ≡ (made_by k).node.entry values.now }
    { entry_at(fusion, &wiring, values) };
    match BlockTensor::from_fn(alloc, *tensor.group(), legs, *tensor.flux(), &entry) {
        Ok(made) => {
            made.known();
            Ok(made)
        }
        Err(fault) => Err(memory_of(fault)),
    }
}
