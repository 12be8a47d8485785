//! Documents and texts of the program.

// Two vectors, worth 11.
pub(crate) const TWO: &str =
    "{\"group\":[],\"tensors\":[{\"legs\":[{\"dir\":\"out\",\"sectors\":[[[],2]]}],\"flux\":[],\"blocks\":[[[0],[1,2]]],\"labels\":[1]},{\"legs\":[{\"dir\":\"in\",\"sectors\":[[[],2]]}],\"flux\":[],\"blocks\":[[[0],[3,4]]],\"labels\":[1]}]}";

pub(crate) const ELEVEN: &str =
    "{\"blocks\":[[[],[[\"11\",\"0\"]]]],\"flux\":[],\"group\":[],\"legs\":[]}\n";

// The document without its last bracket.
pub(crate) const CUT: &str =
    "{\"group\":[],\"tensors\":[{\"legs\":[{\"dir\":\"out\",\"sectors\":[[[],2]]}],\"flux\":[],\"blocks\":[[[0],[1,2]]],\"labels\":[1]},{\"legs\":[{\"dir\":\"in\",\"sectors\":[[[],2]]}],\"flux\":[],\"blocks\":[[[0],[3,4]]],\"labels\":[1]}]";

// Two numbers whose product is 2^127.
pub(crate) const PASSING: &str =
    "{\"group\":[],\"tensors\":[{\"legs\":[],\"flux\":[],\"blocks\":[[[],[\"85070591730234615865843651857942052864\"]]],\"labels\":[]},{\"legs\":[],\"flux\":[],\"blocks\":[[[],[2]]],\"labels\":[]}]}";

// The states 2i|1> and 5|1> of one site, and 7 times its number operator: the overlap is -10i, and the expectation -70i.
pub(crate) const STATES: &str =
    "{\"group\":[{\"kind\":\"u1\",\"fermion\":true}],\"sites\":[{\"kind\":\"fermion\"}],\"terms\":[{\"coef\":7,\"ops\":[[1,\"N\"]]}],\"bra\":[{\"legs\":[{\"dir\":\"out\",\"sectors\":[[[0],1],[[1],1]]}],\"flux\":[1],\"blocks\":[[[1],[[0,2]]]]}],\"ket\":[{\"legs\":[{\"dir\":\"out\",\"sectors\":[[[0],1],[[1],1]]}],\"flux\":[1],\"blocks\":[[[1],[5]]]}]}";

pub(crate) const NUMBER: &str =
    "{\"group\":[{\"fermion\":true,\"kind\":\"u1\"}],\"order\":[],\"tensors\":[{\"blocks\":[[[1,1],[[\"7\",\"0\"]]]],\"flux\":[0],\"labels\":[-1,-2],\"legs\":[{\"dir\":\"out\",\"sectors\":[[[0],1],[[1],1]]},{\"dir\":\"in\",\"sectors\":[[[0],1],[[1],1]]}]}]}\n";

pub(crate) const OVERLAP: &str =
    "{\"blocks\":[[[],[[\"0\",\"-10\"]]]],\"flux\":[0],\"group\":[{\"fermion\":true,\"kind\":\"u1\"}],\"legs\":[]}\n";

pub(crate) const EXPECTATION: &str =
    "{\"blocks\":[[[],[[\"0\",\"-70\"]]]],\"flux\":[0],\"group\":[{\"fermion\":true,\"kind\":\"u1\"}],\"legs\":[]}\n";
