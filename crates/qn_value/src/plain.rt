//! A plain, slow program that computes the value of a small network from its definition.
//!
//! It sums over all values of the bonds, and computes the sign of each summand from the whole word. Tests of faster
//! code compare with it.

ghost use Rattle.std.specs.Prelude.{◌≡◌, ◌≤◌, ◌<◌, ◌^◌, ◌*◌, ◌↔◌, ◌&&◌, ◌++◌, ℕ, Bool, List, count_by, IsNone, IfSome, IfOk, OnOk, IfErr, map, slice_index_or, false};
ghost use Rattle.qn_sign.specs.Sign.{exchange_sign, stands_before, is_odd, xor};
ghost use Rattle.qn_gauss.specs.Gaussian.{Gaussian, limit, mag, zero_g, one_g, mul_g, signed};
ghost use Rattle.qn_value.specs.Networks.{End, Node, Bond, same_end, word, goal, pairs_of, odd_end, twist_sign, sign, values, product, flat, at_values};
ghost use Rattle.qn_value.specs.Tensors.{Row, same_values, entry_at};
ghost use Rattle.qn_value.specs.Magnitudes.{total, magnitudes};
ghost use Rattle.qn_value.specs.Numbering.{LineValue, RowsValue, rows_node, parity_in, summands, value_in, numbered, SummandValue, IsSummand, assignment_of};
ghost use Rattle.qn_value.specs.Evaluation.{IsInRange, IsEvaluationFault};

use qn_gauss::{Gauss, Steps, mag_add, mag_mul};
use std::alloc::{AllocError, Global};
use std::marker::{Brand, Model};
use std::sync::ledger::{Blank, Ledger};

/// One end of a line: the label of the line, and whether the arrow of the leg points into its tensor.
#[derive(Clone, Copy, PartialEq, Eq)]
pub struct LineEnd {
    pub label: i64,
    pub inward: bool,
}

impl Model for LineEnd {
    ghost use Rattle.qn_value.specs.Networks.{End};

    ghost Value = { End };

    ghost view = { λ e. record { label = e.label; inward = e.inward } };

    ghost inverse = { λ e. record { label = e.label; inward = e.inward } };
}

/// A line that is summed over, with the number of its values.
#[derive(Clone, Copy, PartialEq, Eq)]
pub struct SummedLine {
    pub label: i64,
    pub dim: u32,
    pub twisted: bool,
}

impl Model for SummedLine {
    ghost use Rattle.qn_value.specs.Networks.{Bond};

    ghost Value = { Bond };

    ghost view = { λ b. record { label = b.label; dim = b.dim; twisted = b.twisted } };

    ghost inverse = { λ b. record { label = b.label; dim = b.dim; twisted = b.twisted } };
}

/// The parities of the values of a line.
#[derive(Drop)]
pub struct LineParities {
    pub label: i64,
    pub odd: Vec<bool>,
}

impl Model for LineParities {
    ghost use Rattle.qn_value.specs.Numbering.{LineValue};

    ghost Value = { LineValue };

    ghost view = { λ l. record { label = l.label; odd = l.odd.items } };
}

/// A value for each leg of a tensor, and the entry there.
#[derive(Drop)]
pub struct PlainRow {
    pub values: Vec<u32>,
    pub entry: Gauss,
}

impl Model for PlainRow {
    ghost use Rattle.qn_value.specs.Tensors.{Row};

    ghost Value = { Row };

    ghost view = { λ r. record { values = r.values.items; entry = r.entry } };
}

/// A tensor in its network: which end each leg is, and its rows; all other entries are 0.
#[derive(Drop)]
pub struct PlainTensor {
    pub ends: Vec<LineEnd>,
    pub rows: Vec<PlainRow>,
    pub odd: bool,
}

impl Model for PlainTensor {
    ghost use Rattle.qn_value.specs.Numbering.{RowsValue};

    ghost Value = { RowsValue };

    ghost view = { λ t. record { ends = t.ends.items; rows = t.rows.items; odd = t.odd } };
}

/// Why no value is computed.
#[derive(Clone, Copy, Debug, PartialEq, Eq)]
pub enum EvaluationFault {
    /// The value has 2^64 summands or more.
    TooManySummands,
    /// The sum of the magnitudes of all summands is above 2^127 - 1.
    TooLarge,
    Memory,
}

impl From<AllocError> for EvaluationFault {
    ghost use Rattle.std.specs.Prelude.{◌≡◌};
    ghost use Rattle.qn_value.specs.declared.plain.EvaluationFault.TheVariants.{Memory};

    ghost from_gives = { λ _ e. e ≡ Memory };

    fn from(_error: AllocError) -> EvaluationFault {
        EvaluationFault::Memory
    }
}

/// Whether two ends are the same.
fn is_same(first: LineEnd, second: LineEnd) -> bool
    ensures { result ≡ same_end first second }
{
    first.label == second.label && first.inward == second.inward
}

/// The number of summands, where it is below 2^64.
fn number_of_summands(bonds: &[SummedLine]) -> Option<u64>
    ensures none { IsNone result ↔ (2 ^ 64 ≤ summands bonds.now) }
    ensures value { IfSome result (λ n. n ≡ summands bonds.now) }
{
    match bonds.split_first() {
        None => Some(1),
        Some((bond, rest)) => {
            let dim = u64::from(bond.dim);
            if dim == 0 {
                return Some(0);
            }
            match number_of_summands(rest) {
                None => None,
                Some(others) => dim.checked_mul(others),
            }
        }
    }
}

/// The value of an end in the summand of this number, where `elsewhere` is its value if it is no bond's.
fn value_in_summand(bonds: &[SummedLine], number: u64, elsewhere: u64, end: LineEnd) -> u64
    requires number { number < summands bonds.now }
    requires few { summands bonds.now < 2 ^ 64 }
    ensures { result ≡ value_in bonds.now number elsewhere end }
{
    match bonds.split_first() {
        None => elsewhere,
        Some((bond, rest)) => match number_of_summands(rest) {
            None => elsewhere,
            Some(others) => {
                let value = if end.label == bond.label {
                    number / others
                } else {
                    elsewhere
                };
                value_in_summand(rest, number % others, value, end)
            }
        },
    }
}

/// The value that an open end is given, and 0 for all other ends.
fn open_value(opens: &[LineEnd], values: &[u32], end: LineEnd) -> u64
    ensures { result ≡ at_values opens.now values.now end }
{
    match opens.split_first() {
        None => 0,
        Some((open, other_opens)) => match values.split_first() {
            None => 0,
            Some((value, other_values)) => {
                if is_same(end, *open) {
                    u64::from(*value)
                } else {
                    open_value(other_opens, other_values, end)
                }
            }
        },
    }
}

/// A summand of a network's value: the values of the open ends, and the number of the bonds' values.
#[derive(Drop)]
struct Summand<'a> {
    bonds: &'a [SummedLine],
    opens: &'a [LineEnd],
    values: &'a [u32],
    number: u64,
}

impl<'a> Model for Summand<'a> {
    ghost use Rattle.qn_value.specs.Numbering.{SummandValue};

    ghost Value = { SummandValue };

    ghost view = { λ s. record { bonds = s.bonds.now; opens = s.opens.now; values = s.values.now; number = s.number } };
}

/// The value of an end in a summand.
fn value_at(summand: &Summand<'_>, end: LineEnd) -> u64
    requires { IsSummand summand.now }
    ensures { result ≡ assignment_of summand.now end }
{
    let elsewhere = open_value(summand.opens, summand.values, end);
    value_in_summand(summand.bonds, summand.number, elsewhere, end)
}

/// Whether a value of a line is odd.
fn is_odd_value(parities: &[LineParities], label: i64, value: u64) -> bool
    ensures { result ≡ parity_in parities.now label value }
{
    match parities.split_first() {
        None => false,
        Some((line, rest)) => {
            if line.label == label {
                is_set(&line.odd, value)
            } else {
                is_odd_value(rest, label, value)
            }
        }
    }
}

/// The flag at a place, which is not set past the end.
fn is_set(flags: &[bool], place: u64) -> bool
    ensures { result ≡ slice_index_or flags.now place false }
{
    match flags.get(place as usize) {
        Some(flag) => *flag,
        None => false,
    }
}

fn zero() -> Gauss
    ensures { result ≡ zero_g }
{
    Gauss::ZERO
}

fn one() -> Gauss
    ensures { result ≡ one_g }
{
    Gauss::ONE
}

/// Whether the value of an end is odd in a summand.
fn is_odd_end(parities: &[LineParities], summand: &Summand<'_>, end: LineEnd) -> bool
    requires { IsSummand summand.now }
    ensures { result ≡ odd_end (parity_in parities.now) (assignment_of summand.now) end }
{
    is_odd_value(parities, end.label, value_at(summand, end))
}

/// Whether the values of a row are those of the ends in a summand.
fn has_values(row: &[u32], ends: &[LineEnd], summand: &Summand<'_>) -> bool
    requires { IsSummand summand.now }
    ensures { result ≡ same_values row.now (values ends.now (assignment_of summand.now)) }
{
    match row.split_first() {
        None => ends.is_empty(),
        Some((value, other_values)) => match ends.split_first() {
            None => false,
            Some((end, other_ends)) => {
                u64::from(*value) == value_at(summand, *end)
                    && has_values(other_values, other_ends, summand)
            }
        },
    }
}

/// The entry of some rows at the values of the ends in a summand.
fn entry_in_summand(rows: &[PlainRow], ends: &[LineEnd], summand: &Summand<'_>) -> Gauss
    requires { IsSummand summand.now }
    ensures { result ≡ entry_at rows.now (values ends.now (assignment_of summand.now)) }
{
    match rows.split_first() {
        None => zero(),
        Some((row, rest)) => {
            if has_values(&row.values, ends, summand) {
                row.entry
            } else {
                entry_in_summand(rest, ends, summand)
            }
        }
    }
}

/// The product of two numbers, with a counter of its own.
fn multiply<L: Ledger>(first: Gauss, second: Gauss, blank: Blank) -> Gauss
    requires name { blank.name ≡ L.name }
    requires parts { blank.parts ≡ L.parts }
    requires some { 0 < L.parts }
    requires range { mag first * mag second ≤ limit }
    ensures { result ≡ mul_g first second }
{
    let mut steps = Steps::<L>::new(blank);
    first.mul(second, &mut steps)
}

/// The product of two numbers, whose steps are not counted.
fn times(first: Gauss, second: Gauss) -> Gauss
    requires range { mag first * mag second ≤ limit }
    ensures { result ≡ mul_g first second }
{
    multiply::<Brand>(first, second, Blank::new(1))
}

/// A product, with a bound on the magnitudes that is multiplied by the magnitude of its first factor, where that is in
/// range.
fn scaled(first: Gauss, second: Gauss, size: u128) -> Option<(Gauss, u128)>
    requires size { mag second ≤ size }
    requires bound { size ≤ limit }
    ensures value { IfSome result (λ z. z.0 ≡ mul_g first second) }
    ensures magnitude { IfSome result (λ z. z.1 ≡ mag first * size) }
    ensures bound { IfSome result (λ z. z.1 ≤ limit) }
    ensures within { IfSome result (λ z. mag z.0 ≤ z.1) }
    ensures none { IsNone result ↔ (limit < mag first * size) }
{
    match mag_mul(first.mag(), size) {
        None => None,
        Some(magnitude) => Some((times(first, second), magnitude)),
    }
}

/// The product of the tensors' entries in a summand, and the product of their magnitudes, where that is in range.
fn product_of_entries(tensors: &[PlainTensor], summand: &Summand<'_>) -> Option<(Gauss, u128)>
    requires { IsSummand summand.now }
    ensures value { IfSome result (λ z. z.0 ≡ product (map rows_node tensors.now) (assignment_of summand.now)) }
    ensures magnitude { IfSome result (λ z. z.1 ≡ magnitudes (map rows_node tensors.now) (assignment_of summand.now)) }
    ensures bound { IfSome result (λ z. z.1 ≤ limit) }
    ensures within { IfSome result (λ z. mag z.0 ≤ z.1) }
    ensures none { IsNone result → limit < magnitudes (map rows_node tensors.now) (assignment_of summand.now) }
{
    match tensors.split_first() {
        None => Some((one(), 1)),
        Some((tensor, rest)) => {
            let entry = entry_in_summand(&tensor.rows, &tensor.ends, summand);
            if entry.is_zero() {
                return Some((entry, 0));
            }
            match product_of_entries(rest, summand) {
                None => None,
                Some((others, size)) => scaled(entry, others, size),
            }
        }
    }
}

/// Whether an odd number of twisted lines have odd values in a summand.
fn is_twisted_minus(parities: &[LineParities], bonds: &[SummedLine], summand: &Summand<'_>) -> bool
    requires { IsSummand summand.now }
    ensures { result ≡ twist_sign (parity_in parities.now) bonds.now (assignment_of summand.now) }
{
    match bonds.split_first() {
        None => false,
        Some((bond, rest)) => {
            let end = LineEnd {
                label: bond.label,
                inward: true,
            };
            let turns = bond.twisted && is_odd_end(parities, summand, end);
            turns ^ is_twisted_minus(parities, rest, summand)
        }
    }
}

/// Whether `first` stands before `second` in a word.
fn is_before(word: &[LineEnd], first: LineEnd, second: LineEnd) -> bool
    ensures { result ≡ stands_before same_end word.now first second }
{
    match word.split_first() {
        None => false,
        Some((end, rest)) => {
            !is_same(second, *end) && (is_same(first, *end) || is_before(rest, first, second))
        }
    }
}

/// Whether an odd number of the ends that stand later in the goal are odd and stand before this one in the word.
fn is_passed_oddly(
    parities: &[LineParities],
    summand: &Summand<'_>,
    word: &[LineEnd],
    end: LineEnd,
    later: &[LineEnd],
) -> bool
    requires { IsSummand summand.now }
    ensures { result ≡
        is_odd (
        count_by (λ y. odd_end (parity_in parities.now) (assignment_of summand.now) end && odd_end (parity_in parities.now) (assignment_of summand.now) y && stands_before same_end word.now y end) later.now) }
{
    match later.split_first() {
        None => false,
        Some((other, rest)) => {
            let turns = is_odd_end(parities, summand, end)
                && is_odd_end(parities, summand, *other)
                && is_before(word, *other, end);
            turns ^ is_passed_oddly(parities, summand, word, end, rest)
        }
    }
}

/// Whether the word is brought into the goal's order by an odd number of exchanges of odd ends.
fn is_order_minus(
    parities: &[LineParities],
    summand: &Summand<'_>,
    word: &[LineEnd],
    goal: &[LineEnd],
) -> bool
    requires { IsSummand summand.now }
    ensures { result ≡ exchange_sign same_end (odd_end (parity_in parities.now) (assignment_of summand.now)) word.now goal.now }
{
    match goal.split_first() {
        None => false,
        Some((end, later)) => {
            is_passed_oddly(parities, summand, word, *end, later)
                ^ is_order_minus(parities, summand, word, later)
        }
    }
}

/// A summand with its sign, and the product of the magnitudes, where that is in range. `legs` is the word, and `order`
/// the goal.
fn signed_summand(
    parities: &[LineParities],
    tensors: &[PlainTensor],
    legs: &[LineEnd],
    order: &[LineEnd],
    summand: &Summand<'_>,
) -> Option<(Gauss, u128)>
    requires summand { IsSummand summand.now }
    requires legs { legs.now ≡ word (map rows_node tensors.now) }
    requires order { order.now ≡ goal summand.now.bonds summand.now.opens }
    ensures value { IfSome result (λ z.
        z.0 ≡
        signed (sign (parity_in parities.now) (map rows_node tensors.now) summand.now.bonds summand.now.opens (assignment_of summand.now)) (product (map rows_node tensors.now) (assignment_of summand.now))) }
    ensures magnitude { IfSome result (λ z. z.1 ≡ magnitudes (map rows_node tensors.now) (assignment_of summand.now)) }
    ensures bound { IfSome result (λ z. z.1 ≤ limit) }
    ensures within { IfSome result (λ z. mag z.0 ≤ z.1) }
    ensures none { IsNone result → limit < magnitudes (map rows_node tensors.now) (assignment_of summand.now) }
{
    match product_of_entries(tensors, summand) {
        None => None,
        Some((product, size)) => {
            let minus = is_minus(parities, legs, order, summand);
            Some((with_sign(minus, product), size))
        }
    }
}

/// Whether the sign of a summand is minus.
fn is_minus(
    parities: &[LineParities],
    legs: &[LineEnd],
    order: &[LineEnd],
    summand: &Summand<'_>,
) -> bool
    requires { IsSummand summand.now }
    ensures { result ≡
        xor (twist_sign (parity_in parities.now) summand.now.bonds (assignment_of summand.now)) (
        exchange_sign same_end (odd_end (parity_in parities.now) (assignment_of summand.now)) legs.now order.now) }
{
    is_twisted_minus(parities, summand.bonds, summand)
        ^ is_order_minus(parities, summand, legs, order)
}

/// A number, or its negative.
fn with_sign(minus: bool, number: Gauss) -> Gauss
    ensures value { result ≡ signed minus number }
    ensures magnitude { mag result ≡ mag number }
{
    if minus { number.neg() } else { number }
}

/// Adds the legs of the tensors to a word.
fn push_word(legs: &mut Vec<LineEnd>, tensors: &[PlainTensor]) -> Result<(), AllocError>
    ensures { OnOk result (legs.new.items ≡ legs.old.items ++ word (map rows_node tensors.now)) }
{
    match tensors.split_first() {
        None => Ok(()),
        Some((tensor, rest)) => {
            legs.extend_from_slice(&tensor.ends)?;
            push_word(legs, rest)
        }
    }
}

/// Adds the two ends of each bond to a goal, the inward one first.
fn push_ends(order: &mut Vec<LineEnd>, bonds: &[SummedLine]) -> Result<(), AllocError>
    ensures { OnOk result (order.new.items ≡ order.old.items ++ pairs_of bonds.now) }
{
    match bonds.split_first() {
        None => Ok(()),
        Some((bond, rest)) => {
            let label = bond.label;
            order.push(LineEnd {
                label,
                inward: true,
            })?;
            order.push(LineEnd {
                label,
                inward: false,
            })?;
            push_ends(order, rest)
        }
    }
}

/// The sum of all summands.
fn sum_of_summands(
    parities: &[LineParities],
    tensors: &[PlainTensor],
    bonds: &[SummedLine],
    opens: &[LineEnd],
    values: &[u32],
    legs: &[LineEnd],
    order: &[LineEnd],
    count: u64,
) -> Option<Gauss>
    requires count { count ≡ summands bonds.now }
    requires legs { legs.now ≡ word (map rows_node tensors.now) }
    requires order { order.now ≡ goal bonds.now opens.now }
    ensures value { IfSome result (λ z.
        z ≡
        flat (parity_in parities.now) (map rows_node tensors.now) bonds.now opens.now (
        at_values opens.now values.now)) }
    ensures none { IsNone result ↔
        (limit < total bonds.now (magnitudes (map rows_node tensors.now)) (at_values opens.now values.now)) }
{
    let mut sum = zero();
    let mut size: u128 = 0;
    for number in 0..count {
        let summand = Summand {
            bonds,
            opens,
            values,
            number,
        };
        match signed_summand(parities, tensors, legs, order, &summand) {
            None => return None,
            Some((term, more)) => match mag_add(size, more) {
                None => return None,
                Some(all) => {
                    size = all;
                    sum = sum.add(term);
                }
            },
        }
    }
    Some(sum)
}

/// The value of a network, where the open ends have these values: the sum, over all values of the bonds, of the sign
/// times the product of the entries. The parities of values that no line of `parities` gives are even.
pub fn evaluate(
    alloc: Global,
    parities: &[LineParities],
    tensors: &[PlainTensor],
    bonds: &[SummedLine],
    opens: &[LineEnd],
    values: &[u32],
) -> Result<Gauss, EvaluationFault>
    ensures value { IfOk result (λ z.
        z ≡
        flat (parity_in parities.now) (map rows_node tensors.now) bonds.now opens.now (
        at_values opens.now values.now)) }
    ensures range { OnOk result (IsInRange (map rows_node tensors.now) bonds.now opens.now values.now) }
    ensures err { IfErr result (IsEvaluationFault (map rows_node tensors.now) bonds.now opens.now values.now) }
{
    let mut legs = Vec::new(alloc);
    push_word(&mut legs, tensors)?;
    let mut order = Vec::new(alloc);
    push_ends(&mut order, bonds)?;
    order.extend_from_slice(opens)?;
    match number_of_summands(bonds) {
        None => Err(EvaluationFault::TooManySummands),
        Some(count) => {
            match sum_of_summands(
                parities, tensors, bonds, opens, values, &legs, &order, count,
            ) {
                None => Err(EvaluationFault::TooLarge),
                Some(value) => Ok(value),
            }
        }
    }
}
