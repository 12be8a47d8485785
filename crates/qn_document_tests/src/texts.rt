//! Texts of tensors and of networks, read and written.

use qn_doc::{AnyNet, AnyTensor, DocFault, read_network, read_tensor, write_network, write_tensor};
use std::alloc::Global;
use std::process::Abort;

// The text of the tensor that the document says, or its first fault.
fn tensor_text(alloc: Global, document: &str) -> Result<Vec<u8>, DocFault> {
    let text = match read_tensor(alloc, document.as_bytes())? {
        AnyTensor::N0(t) => write_tensor(alloc, &t),
        AnyTensor::N1(t) => write_tensor(alloc, &t),
        AnyTensor::N2(t) => write_tensor(alloc, &t),
        AnyTensor::N3(t) => write_tensor(alloc, &t),
        AnyTensor::N4(t) => write_tensor(alloc, &t),
    };
    Ok(text?)
}

// The text of the network that the document says, or its first fault.
fn network_text(alloc: Global, document: &str) -> Result<Vec<u8>, DocFault> {
    let text = match read_network(alloc, document.as_bytes())? {
        AnyNet::N0(net) => write_network(alloc, &net),
        AnyNet::N1(net) => write_network(alloc, &net),
        AnyNet::N2(net) => write_network(alloc, &net),
        AnyNet::N3(net) => write_network(alloc, &net),
        AnyNet::N4(net) => write_network(alloc, &net),
    };
    Ok(text?)
}

// Documents of tensors, each with its text.
const TENSORS: &[(&str, &str)] = &[
    (
        "{\"version\":1,\"group\":[],\"legs\":[],\"flux\":[],\"blocks\":[[[],[11]]]}",
        "{\"blocks\":[[[],[[\"11\",\"0\"]]]],\"flux\":[],\"group\":[],\"legs\":[]}\n",
    ),
    (
        " {\"legs\":[{\"sectors\":[[[],2]],\"dir\":\"out\",\"name\":7}],\"flux\":[],\"blocks\":[[[0],[17,[0,\"-39\"]]]],\"group\":[]}",
        "{\"blocks\":[[[0],[[\"17\",\"0\"],[\"0\",\"-39\"]]]],\"flux\":[],\"group\":[],\"legs\":[{\"dir\":\"out\",\"sectors\":[[[],2]]}]}\n",
    ),
    (
        "{\"blocks\":[[[1],[1]]],\"flux\":[1],\"group\":[{\"fermion\":true,\"kind\":\"u1\"}],\"legs\":[{\"dir\":\"out\",\"sectors\":[[[0],1],[[1],1]]}]}",
        "{\"blocks\":[[[1],[[\"1\",\"0\"]]]],\"flux\":[1],\"group\":[{\"fermion\":true,\"kind\":\"u1\"}],\"legs\":[{\"dir\":\"out\",\"sectors\":[[[0],1],[[1],1]]}]}\n",
    ),
    (
        "{\"blocks\":[[[0,0],[0]],[[1,1],[[\"1\",\"0\"]]]],\"flux\":[0,0],\"group\":[{\"fermion\":true,\"kind\":\"u1\"},{\"fermion\":false,\"kind\":\"zn\",\"n\":5}],\"legs\":[{\"dir\":\"out\",\"sectors\":[[[-3,4],1],[[1,0],1]]},{\"dir\":\"in\",\"sectors\":[[[-3,4],1],[[1,0],1]]}]}",
        "{\"blocks\":[[[1,1],[[\"1\",\"0\"]]]],\"flux\":[0,0],\"group\":[{\"fermion\":true,\"kind\":\"u1\"},{\"fermion\":false,\"kind\":\"zn\",\"n\":5}],\"legs\":[{\"dir\":\"out\",\"sectors\":[[[-3,4],1],[[1,0],1]]},{\"dir\":\"in\",\"sectors\":[[[-3,4],1],[[1,0],1]]}]}\n",
    ),
    (
        "{\"blocks\":[],\"flux\":[1,-2,3],\"group\":[{\"fermion\":true,\"kind\":\"u1\"},{\"fermion\":false,\"kind\":\"u1\"},{\"fermion\":false,\"kind\":\"zn\",\"n\":1000}],\"legs\":[]}",
        "{\"blocks\":[],\"flux\":[1,-2,3],\"group\":[{\"fermion\":true,\"kind\":\"u1\"},{\"fermion\":false,\"kind\":\"u1\"},{\"fermion\":false,\"kind\":\"zn\",\"n\":1000}],\"legs\":[]}\n",
    ),
    (
        "{\"blocks\":[[[],[[\"0\",\"-1\"]]]],\"flux\":[0,0,0,0],\"group\":[{\"fermion\":true,\"kind\":\"u1\"},{\"fermion\":false,\"kind\":\"u1\"},{\"fermion\":true,\"kind\":\"zn\",\"n\":2},{\"fermion\":false,\"kind\":\"zn\",\"n\":3}],\"legs\":[]}",
        "{\"blocks\":[[[],[[\"0\",\"-1\"]]]],\"flux\":[0,0,0,0],\"group\":[{\"fermion\":true,\"kind\":\"u1\"},{\"fermion\":false,\"kind\":\"u1\"},{\"fermion\":true,\"kind\":\"zn\",\"n\":2},{\"fermion\":false,\"kind\":\"zn\",\"n\":3}],\"legs\":[]}\n",
    ),
];

// Documents of networks, each with its text.
const NETWORKS: &[(&str, &str)] = &[
    (
        "{\"order\":[1],\"group\":[{\"fermion\":true,\"kind\":\"u1\"}],\"tensors\":[{\"blocks\":[[[1,0,0],[1]]],\"flux\":[0],\"labels\":[-1,-4,1],\"legs\":[{\"dir\":\"out\",\"sectors\":[[[0],1],[[1],1]]},{\"dir\":\"in\",\"sectors\":[[[0],1],[[1],1]]},{\"dir\":\"in\",\"sectors\":[[[1],1]]}]},{\"blocks\":[[[0,0,1],[[\"1\",\"0\"]]]],\"flux\":[0],\"labels\":[1,-2,-3],\"legs\":[{\"dir\":\"out\",\"sectors\":[[[1],1]]},{\"dir\":\"out\",\"sectors\":[[[0],1],[[1],1]]},{\"dir\":\"in\",\"sectors\":[[[0],1],[[1],1]]}]}]}",
        "{\"group\":[{\"fermion\":true,\"kind\":\"u1\"}],\"order\":[1],\"tensors\":[{\"blocks\":[[[1,0,0],[[\"1\",\"0\"]]]],\"flux\":[0],\"labels\":[-1,-4,1],\"legs\":[{\"dir\":\"out\",\"sectors\":[[[0],1],[[1],1]]},{\"dir\":\"in\",\"sectors\":[[[0],1],[[1],1]]},{\"dir\":\"in\",\"sectors\":[[[1],1]]}]},{\"blocks\":[[[0,0,1],[[\"1\",\"0\"]]]],\"flux\":[0],\"labels\":[1,-2,-3],\"legs\":[{\"dir\":\"out\",\"sectors\":[[[1],1]]},{\"dir\":\"out\",\"sectors\":[[[0],1],[[1],1]]},{\"dir\":\"in\",\"sectors\":[[[0],1],[[1],1]]}]}]}\n",
    ),
    (
        " {\"note\":\"x\",\"version\":1,\"tensors\":[{\"combine\":{\"mode\":\"fuse\",\"legs\":[{\"sectors\":[[[1],1]],\"dir\":\"in\"}],\"dir\":\"out\"},\"labels\":[-1,1]},{\"labels\":[1],\"legs\":[{\"dir\":\"in\",\"sectors\":[[[1],1]]}],\"flux\":[-1],\"blocks\":[[[0],[3]]]}],\"group\":[{\"kind\":\"u1\",\"fermion\":true}]}",
        "{\"group\":[{\"fermion\":true,\"kind\":\"u1\"}],\"order\":[1],\"tensors\":[{\"combine\":{\"dir\":\"out\",\"legs\":[{\"dir\":\"in\",\"sectors\":[[[1],1]]}],\"mode\":\"fuse\"},\"labels\":[-1,1]},{\"blocks\":[[[0],[[\"3\",\"0\"]]]],\"flux\":[-1],\"labels\":[1],\"legs\":[{\"dir\":\"in\",\"sectors\":[[[1],1]]}]}]}\n",
    ),
    (
        "{\"group\":[],\"tensors\":[{\"legs\":[{\"dir\":\"out\",\"sectors\":[[[],2]]}],\"flux\":[],\"blocks\":[[[0],[0,0]]],\"labels\":[-1]}]}",
        "{\"group\":[],\"order\":[],\"tensors\":[{\"blocks\":[],\"flux\":[],\"labels\":[-1],\"legs\":[{\"dir\":\"out\",\"sectors\":[[[],2]]}]}]}\n",
    ),
];

fn expect_text(rt: &impl Abort, found: Result<Vec<u8>, DocFault>, wanted: &str) {
    match found {
        Ok(text) => assert!(rt; text.as_slice() == wanted.as_bytes(), "{wanted}"),
        Err(fault) => panic!(rt; "{fault:?} in place of {wanted}"),
    }
}

#[test]
fn texts_read_and_written(rt: HostRuntime) {
    let alloc = rt.alloc();
    for (document, text) in TENSORS {
        expect_text(&rt, tensor_text(alloc, document), text);
    }
    for (document, text) in NETWORKS {
        expect_text(&rt, network_text(alloc, document), text);
    }
}
