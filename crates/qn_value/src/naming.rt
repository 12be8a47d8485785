//! Other names for the labels, other parities, and other tensors with the same entries.

ghost use Rattle.qn_value.specs.Local.{CoupledLaw};
ghost use Rattle.qn_value.specs.Names.{AlikeLaw, ContractAlikeLaw, LabelsLaw, NamesLaw, OperationLaw, OwnLabelsLaw, ParityLaw, RelabelLaw};

/// Two lists of labels of one pattern give names that take the first to the second.
pub fn names_law()
    ensures { NamesLaw }
{}

/// The names of the lines do not matter.
pub fn relabel_law()
    ensures { RelabelLaw }
{}

/// Tensors whose labels are in order form a network.
pub fn labels_law()
    ensures { LabelsLaw }
{}

/// Only the parities of the lines of a network matter.
pub fn parity_law()
    ensures { ParityLaw }
{}

/// Tensors with labels of their own are contracted to what they are in the network.
pub fn own_labels_law()
    ensures { OwnLabelsLaw }
{}

/// A tensor is replaced by one with the same entries at values of its legs.
pub fn alike_law()
    ensures { AlikeLaw }
{}

/// Tensors with the same entries at values of their legs have the same contraction.
pub fn contract_alike_law()
    ensures { ContractAlikeLaw }
{}

/// An operation with labels of its own, in an order of its own, is the contraction in the network.
pub fn operation_law()
    ensures { OperationLaw }
{}

/// Coupled tensors are a network.
pub fn coupled_law()
    ensures { CoupledLaw }
{}
