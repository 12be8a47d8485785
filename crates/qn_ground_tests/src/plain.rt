//! Networks summed by the plain program.

use qn_gauss::Gauss;
use qn_value::plain::{
    EvaluationFault, LineEnd, LineParities, PlainRow, PlainTensor, SummedLine, evaluate,
};
use std::alloc::{AllocError, Global};

const IN: LineEnd = LineEnd {
    label: 1,
    inward: true,
};

const OUT: LineEnd = LineEnd {
    label: 1,
    inward: false,
};

const LINE: SummedLine = SummedLine {
    label: 1,
    dim: 2,
    twisted: false,
};

const TWISTED: SummedLine = SummedLine {
    label: 1,
    dim: 2,
    twisted: true,
};

const LONG: SummedLine = SummedLine {
    label: 2,
    dim: u32::MAX,
    twisted: false,
};

// A tensor whose legs are these ends, with these entries at equal values of all legs.
fn tensor(
    alloc: Global,
    ends: &[LineEnd],
    entries: &[i128],
    odd: bool,
) -> Result<PlainTensor, AllocError> {
    let mut rows = Vec::new(alloc);
    let mut value = 0u32;
    for entry in entries {
        let values = vec![in alloc; value; ends.len()]?;
        let entry = Gauss::new(*entry, 0).unwrap_or(Gauss::ZERO);
        rows.push(PlainRow { values, entry })?;
        value = value.wrapping_add(1);
    }
    Ok(PlainTensor {
        ends: Vec::from_slice(alloc, ends)?,
        rows,
        odd,
    })
}

// Line 1, with an even and an odd value.
fn lines(alloc: Global) -> Result<Vec<LineParities>, AllocError> {
    let odd = Vec::from_slice(alloc, &[false, true])?;
    let mut lines = Vec::new(alloc);
    lines.push(LineParities { label: 1, odd })?;
    Ok(lines)
}

// The matrix with the diagonal 2, 3, whose two legs are the ends of one line.
fn trace(
    alloc: Global,
    first: LineEnd,
    second: LineEnd,
    line: SummedLine,
) -> Result<i128, EvaluationFault> {
    let tensors = [tensor(alloc, &[first, second], &[2, 3], false)?];
    evaluate(alloc, &lines(alloc)?, &tensors, &[line], &[], &[]).map(|z| z.re())
}

// Two odd tensors with one leg each, the ends of one line, and their entries at its odd value.
fn pair(
    alloc: Global,
    first: (LineEnd, i128),
    second: (LineEnd, i128),
) -> Result<i128, EvaluationFault> {
    let tensors = [
        tensor(alloc, &[first.0], &[0, first.1], true)?,
        tensor(alloc, &[second.0], &[0, second.1], true)?,
    ];
    evaluate(alloc, &lines(alloc)?, &tensors, &[LINE], &[], &[]).map(|z| z.re())
}

// A vector with the one entry 4, at a value of its open leg.
fn open(alloc: Global, value: u32) -> Result<i128, EvaluationFault> {
    let tensors = [tensor(alloc, &[OUT], &[4], false)?];
    evaluate(alloc, &lines(alloc)?, &tensors, &[], &[OUT], &[value]).map(|z| z.re())
}

// Three lines and no tensor: 2^65 - 2^34 + 2 summands.
fn long(alloc: Global) -> Result<i128, EvaluationFault> {
    evaluate(alloc, &lines(alloc)?, &[], &[LONG, LONG, LINE], &[], &[]).map(|z| z.re())
}

#[test]
fn values_of_networks(rt: HostRuntime) {
    let alloc = rt.alloc();
    // The trace, and the supertrace where the Out leg stands first or the line is twisted.
    assert!(rt; trace(alloc, IN, OUT, LINE) == Ok(5));
    assert!(rt; trace(alloc, OUT, IN, LINE) == Ok(-1));
    assert!(rt; trace(alloc, IN, OUT, TWISTED) == Ok(-1));
    // Two odd tensors that share a line: the sign depends on their order.
    assert!(rt; pair(alloc, (OUT, 2), (IN, 3)) == Ok(-6));
    assert!(rt; pair(alloc, (IN, 3), (OUT, 2)) == Ok(6));
    assert!(rt; pair(alloc, (OUT, i128::MAX), (IN, 2)) == Err(EvaluationFault::TooLarge));
    assert!(rt; open(alloc, 0) == Ok(4));
    assert!(rt; open(alloc, 1) == Ok(0));
    assert!(rt; long(alloc) == Err(EvaluationFault::TooManySummands));
}
