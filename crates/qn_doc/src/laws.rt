//! What holds of documents, whatever their values.
ghost use Rattle.qn_doc.specs.NetworksReadBack.{IsDocumentOf, NetworkReadsBack, NetworkTextReadsBack};
ghost use Rattle.qn_doc.specs.TensorsReadBack.{IsPrintable, TensorReadsBack, TensorTextReadsBack};
ghost use Rattle.qn_doc.specs.WorkedDocument.{worked_matrix, worked_text};
ghost use Rattle.qn_net.specs.Examples.{trace_alone};

/// The tree of the text of a tensor within the limits of a document has no fault, and means the
/// tensor without its blocks of zeros. So `read_tensor` of what `write_tensor` writes gives its group,
/// legs, flux and entries, where the text is not too long.
pub fn tensors_read_back()
    ensures tree { TensorReadsBack }
    ensures text { TensorTextReadsBack }
{}

/// The tree of the text of a network within the limits of a document has no fault before its labels,
/// and means the network's group, order, twisted labels and members, these without their blocks of zeros. So
/// `read_network` of what `write_network` writes gives the network, where the text is not too long.
pub fn networks_read_back()
    ensures tree { NetworkReadsBack }
    ensures text { NetworkTextReadsBack }
{}

/// What the laws ask for is met: by the matrix with the diagonal 2, 3, and by the text of its trace.
pub fn worked_premises()
    ensures tensor { IsPrintable worked_matrix }
    ensures network { IsDocumentOf trace_alone worked_text }
{}
