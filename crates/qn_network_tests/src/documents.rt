//! Small networks with an entry wherever one may be, up to their orders, and orders of their labels.

// An odd tensor between, crossing lines and a trace.
const CROSSING: &str =
    "{\"group\":[{\"kind\":\"u1\",\"fermion\":true}],\"tensors\":[{\"legs\":[{\"dir\":\"out\",\"sectors\":[[[0],1],[[1],1]]},{\"dir\":\"in\",\"sectors\":[[[0],1],[[1],1]]},{\"dir\":\"out\",\"sectors\":[[[0],1],[[1],1]]}],\"flux\":[1],\"blocks\":[[[0,0,1],[[1,-1]]],[[1,0,0],[[2,-1]]],[[1,1,1],[[3,2]]]],\"labels\":[1,-1,2]},{\"legs\":[{\"dir\":\"out\",\"sectors\":[[[0],1],[[1],1]]}],\"flux\":[1],\"blocks\":[[[1],[[3,2]]]],\"labels\":[-2]},{\"legs\":[{\"dir\":\"in\",\"sectors\":[[[0],1],[[1],1]]},{\"dir\":\"in\",\"sectors\":[[[0],1],[[1],1]]},{\"dir\":\"out\",\"sectors\":[[[0],1],[[1],1]]},{\"dir\":\"in\",\"sectors\":[[[0],1],[[1],1]]}],\"flux\":[-1],\"blocks\":[[[0,0,0,1],[[2,1]]],[[0,1,0,0],[[-3,3]]],[[0,1,1,1],[[0,3]]],[[1,0,0,0],[[-2,2]]],[[1,0,1,1],[[-3,-2]]],[[1,1,1,0],[[-3,-1]]]],\"labels\":[2,1,3,3]}]";

// The same with parts modulo 4.
const CROSSING_MODULO_4: &str =
    "{\"group\":[{\"kind\":\"zn\",\"n\":4,\"fermion\":true}],\"tensors\":[{\"legs\":[{\"dir\":\"out\",\"sectors\":[[[0],1],[[1],1]]},{\"dir\":\"in\",\"sectors\":[[[0],1],[[1],1]]},{\"dir\":\"out\",\"sectors\":[[[0],1],[[1],1]]}],\"flux\":[1],\"blocks\":[[[0,0,1],[[0,3]]],[[1,0,0],[-2]],[[1,1,1],[[1,-3]]]],\"labels\":[1,-1,2]},{\"legs\":[{\"dir\":\"out\",\"sectors\":[[[0],1],[[1],1]]}],\"flux\":[1],\"blocks\":[[[1],[[1,-2]]]],\"labels\":[-2]},{\"legs\":[{\"dir\":\"in\",\"sectors\":[[[0],1],[[1],1]]},{\"dir\":\"in\",\"sectors\":[[[0],1],[[1],1]]},{\"dir\":\"out\",\"sectors\":[[[0],1],[[1],1]]},{\"dir\":\"in\",\"sectors\":[[[0],1],[[1],1]]}],\"flux\":[3],\"blocks\":[[[0,0,0,1],[[-3,2]]],[[0,1,0,0],[-2]],[[0,1,1,1],[[-1,-2]]],[[1,0,0,0],[[3,3]]],[[1,0,1,1],[[0,-2]]],[[1,1,1,0],[[3,3]]]],\"labels\":[2,1,3,3]}]";

// The same without charges.
const CROSSING_WITHOUT_CHARGES: &str =
    "{\"group\":[],\"tensors\":[{\"legs\":[{\"dir\":\"out\",\"sectors\":[[[],2]]},{\"dir\":\"in\",\"sectors\":[[[],2]]},{\"dir\":\"out\",\"sectors\":[[[],2]]}],\"flux\":[],\"blocks\":[[[0,0,0],[[-3,-2],[1,1],[0,-2],[-2,-3],[3,-3],[-2,3],[-2,-2],[3,-2]]]],\"labels\":[1,-1,2]},{\"legs\":[{\"dir\":\"out\",\"sectors\":[[[],2]]}],\"flux\":[],\"blocks\":[[[0],[[-1,-1],[-2,1]]]],\"labels\":[-2]},{\"legs\":[{\"dir\":\"in\",\"sectors\":[[[],2]]},{\"dir\":\"in\",\"sectors\":[[[],2]]},{\"dir\":\"out\",\"sectors\":[[[],2]]},{\"dir\":\"in\",\"sectors\":[[[],2]]}],\"flux\":[],\"blocks\":[[[0,0,0,0],[[2,2],[-2,-2],[2,-2],[0,-1],[-3,-1],[0,-2],[-2,-1],[-3,-1],[-1,3],[1,1],[-3,1],[2,2],[-1,-3],[-1,-1],[3,-1],[0,2]]]],\"labels\":[2,1,3,3]}]";

// A ring, and a tensor that no label connects with it.
const RING: &str =
    "{\"group\":[{\"kind\":\"u1\",\"fermion\":true}],\"tensors\":[{\"legs\":[{\"dir\":\"in\",\"sectors\":[[[0],1],[[1],1]]},{\"dir\":\"out\",\"sectors\":[[[0],1],[[1],1]]}],\"flux\":[1],\"blocks\":[[[0,1],[[-1,-2]]]],\"labels\":[1,2]},{\"legs\":[{\"dir\":\"out\",\"sectors\":[[[0],1],[[1],1]]},{\"dir\":\"in\",\"sectors\":[[[0],1],[[1],1]]}],\"flux\":[1],\"blocks\":[[[1,0],[[2,-2]]]],\"labels\":[-1,-2]},{\"legs\":[{\"dir\":\"in\",\"sectors\":[[[0],1],[[1],1]]},{\"dir\":\"out\",\"sectors\":[[[0],1],[[1],1]]}],\"flux\":[0],\"blocks\":[[[0,0],[[-3,-1]]],[[1,1],[[-3,2]]]],\"labels\":[2,3]},{\"legs\":[{\"dir\":\"in\",\"sectors\":[[[0],1],[[1],1]]},{\"dir\":\"out\",\"sectors\":[[[0],1],[[1],1]]}],\"flux\":[-1],\"blocks\":[[[1,0],[[-1,3]]]],\"labels\":[3,1]}]";

// The same with a bosonic charge and a parity.
const RING_OF_TWO_FACTORS: &str =
    "{\"group\":[{\"kind\":\"u1\",\"fermion\":false},{\"kind\":\"zn\",\"n\":2,\"fermion\":true}],\"tensors\":[{\"legs\":[{\"dir\":\"in\",\"sectors\":[[[0,0],1],[[1,1],1]]},{\"dir\":\"out\",\"sectors\":[[[0,0],1],[[1,1],1]]}],\"flux\":[1,1],\"blocks\":[[[0,1],[[0,-3]]]],\"labels\":[1,2]},{\"legs\":[{\"dir\":\"out\",\"sectors\":[[[0,0],1],[[1,1],1]]},{\"dir\":\"in\",\"sectors\":[[[0,0],1],[[1,1],1]]}],\"flux\":[1,1],\"blocks\":[[[1,0],[[1,3]]]],\"labels\":[-1,-2]},{\"legs\":[{\"dir\":\"in\",\"sectors\":[[[0,0],1],[[1,1],1]]},{\"dir\":\"out\",\"sectors\":[[[0,0],1],[[1,1],1]]}],\"flux\":[0,0],\"blocks\":[[[0,0],[[0,-1]]],[[1,1],[[0,1]]]],\"labels\":[2,3]},{\"legs\":[{\"dir\":\"in\",\"sectors\":[[[0,0],1],[[1,1],1]]},{\"dir\":\"out\",\"sectors\":[[[0,0],1],[[1,1],1]]}],\"flux\":[-1,1],\"blocks\":[[[1,0],[[3,-3]]]],\"labels\":[3,1]}]";

// A step that fuses and a step that splits, with an odd tensor between.
const FUSED: &str =
    "{\"group\":[{\"kind\":\"u1\",\"fermion\":true}],\"tensors\":[{\"legs\":[{\"dir\":\"out\",\"sectors\":[[[0],1],[[1],1]]},{\"dir\":\"out\",\"sectors\":[[[0],1],[[1],1]]}],\"flux\":[1],\"blocks\":[[[0,1],[[0,-3]]],[[1,0],[[2,-2]]]],\"labels\":[1,2]},{\"legs\":[{\"dir\":\"out\",\"sectors\":[[[0],1],[[1],1]]}],\"flux\":[1],\"blocks\":[[[1],[[1,-2]]]],\"labels\":[-1]},{\"combine\":{\"dir\":\"out\",\"legs\":[{\"dir\":\"out\",\"sectors\":[[[0],1],[[1],1]]},{\"dir\":\"out\",\"sectors\":[[[0],1],[[1],1]]}],\"mode\":\"fuse\"},\"labels\":[3,2,1]},{\"combine\":{\"dir\":\"out\",\"legs\":[{\"dir\":\"out\",\"sectors\":[[[0],1],[[1],1]]},{\"dir\":\"out\",\"sectors\":[[[0],1],[[1],1]]}],\"mode\":\"split\"},\"labels\":[-3,4,3]},{\"legs\":[{\"dir\":\"in\",\"sectors\":[[[0],1],[[1],1]]},{\"dir\":\"out\",\"sectors\":[[[0],1],[[1],1]]}],\"flux\":[0],\"blocks\":[[[0,0],[[-3,3]]],[[1,1],[[-2,3]]]],\"labels\":[4,-2]}]";

// The same with parts modulo 4.
const FUSED_MODULO_4: &str =
    "{\"group\":[{\"kind\":\"zn\",\"n\":4,\"fermion\":true}],\"tensors\":[{\"legs\":[{\"dir\":\"out\",\"sectors\":[[[0],1],[[1],1]]},{\"dir\":\"out\",\"sectors\":[[[0],1],[[1],1]]}],\"flux\":[1],\"blocks\":[[[0,1],[[0,-1]]],[[1,0],[[1,-1]]]],\"labels\":[1,2]},{\"legs\":[{\"dir\":\"out\",\"sectors\":[[[0],1],[[1],1]]}],\"flux\":[1],\"blocks\":[[[1],[[1,-1]]]],\"labels\":[-1]},{\"combine\":{\"dir\":\"out\",\"legs\":[{\"dir\":\"out\",\"sectors\":[[[0],1],[[1],1]]},{\"dir\":\"out\",\"sectors\":[[[0],1],[[1],1]]}],\"mode\":\"fuse\"},\"labels\":[3,2,1]},{\"combine\":{\"dir\":\"out\",\"legs\":[{\"dir\":\"out\",\"sectors\":[[[0],1],[[1],1]]},{\"dir\":\"out\",\"sectors\":[[[0],1],[[1],1]]}],\"mode\":\"split\"},\"labels\":[-3,4,3]},{\"legs\":[{\"dir\":\"in\",\"sectors\":[[[0],1],[[1],1]]},{\"dir\":\"out\",\"sectors\":[[[0],1],[[1],1]]}],\"flux\":[0],\"blocks\":[[[0,0],[3]],[[1,1],[[-3,1]]]],\"labels\":[4,-2]}]";

// Combiners of legs with both arrows, before their tensor.
const COMBINERS: &str =
    "{\"group\":[{\"kind\":\"u1\",\"fermion\":true}],\"tensors\":[{\"combine\":{\"dir\":\"in\",\"legs\":[{\"dir\":\"in\",\"sectors\":[[[0],1],[[1],1]]},{\"dir\":\"out\",\"sectors\":[[[0],1],[[1],1]]}],\"mode\":\"fuse\"},\"labels\":[1,3,2]},{\"combine\":{\"dir\":\"in\",\"legs\":[{\"dir\":\"in\",\"sectors\":[[[0],1],[[1],1]]},{\"dir\":\"out\",\"sectors\":[[[0],1],[[1],1]]}],\"mode\":\"split\"},\"labels\":[-3,-4,1]},{\"legs\":[{\"dir\":\"in\",\"sectors\":[[[0],1],[[1],1]]}],\"flux\":[-1],\"blocks\":[[[1],[[2,3]]]],\"labels\":[-2]},{\"legs\":[{\"dir\":\"out\",\"sectors\":[[[0],1],[[1],1]]},{\"dir\":\"in\",\"sectors\":[[[0],1],[[1],1]]},{\"dir\":\"out\",\"sectors\":[[[0],1],[[1],1]]}],\"flux\":[1],\"blocks\":[[[0,0,1],[[3,-1]]],[[1,0,0],[[3,-1]]],[[1,1,1],[-3]]],\"labels\":[3,2,-1]}]";

// The same with bosons.
const COMBINERS_OF_BOSONS: &str =
    "{\"group\":[{\"kind\":\"u1\",\"fermion\":false}],\"tensors\":[{\"combine\":{\"dir\":\"in\",\"legs\":[{\"dir\":\"in\",\"sectors\":[[[0],1],[[1],1]]},{\"dir\":\"out\",\"sectors\":[[[0],1],[[1],1]]}],\"mode\":\"fuse\"},\"labels\":[1,3,2]},{\"combine\":{\"dir\":\"in\",\"legs\":[{\"dir\":\"in\",\"sectors\":[[[0],1],[[1],1]]},{\"dir\":\"out\",\"sectors\":[[[0],1],[[1],1]]}],\"mode\":\"split\"},\"labels\":[-3,-4,1]},{\"legs\":[{\"dir\":\"in\",\"sectors\":[[[0],1],[[1],1]]}],\"flux\":[-1],\"blocks\":[[[1],[[-3,-2]]]],\"labels\":[-2]},{\"legs\":[{\"dir\":\"out\",\"sectors\":[[[0],1],[[1],1]]},{\"dir\":\"in\",\"sectors\":[[[0],1],[[1],1]]},{\"dir\":\"out\",\"sectors\":[[[0],1],[[1],1]]}],\"flux\":[1],\"blocks\":[[[0,0,1],[[-1,1]]],[[1,0,0],[[1,-1]]],[[1,1,1],[[-2,-1]]]],\"labels\":[3,2,-1]}]";

// The same with a bosonic charge and a parity.
const COMBINERS_OF_TWO_FACTORS: &str =
    "{\"group\":[{\"kind\":\"u1\",\"fermion\":false},{\"kind\":\"zn\",\"n\":2,\"fermion\":true}],\"tensors\":[{\"combine\":{\"dir\":\"in\",\"legs\":[{\"dir\":\"in\",\"sectors\":[[[0,0],1],[[1,1],1]]},{\"dir\":\"out\",\"sectors\":[[[0,0],1],[[1,1],1]]}],\"mode\":\"fuse\"},\"labels\":[1,3,2]},{\"combine\":{\"dir\":\"in\",\"legs\":[{\"dir\":\"in\",\"sectors\":[[[0,0],1],[[1,1],1]]},{\"dir\":\"out\",\"sectors\":[[[0,0],1],[[1,1],1]]}],\"mode\":\"split\"},\"labels\":[-3,-4,1]},{\"legs\":[{\"dir\":\"in\",\"sectors\":[[[0,0],1],[[1,1],1]]}],\"flux\":[-1,1],\"blocks\":[[[1],[[-1,2]]]],\"labels\":[-2]},{\"legs\":[{\"dir\":\"out\",\"sectors\":[[[0,0],1],[[1,1],1]]},{\"dir\":\"in\",\"sectors\":[[[0,0],1],[[1,1],1]]},{\"dir\":\"out\",\"sectors\":[[[0,0],1],[[1,1],1]]}],\"flux\":[1,1],\"blocks\":[[[0,0,1],[[1,-3]]],[[1,0,0],[[-1,2]]],[[1,1,1],[[-1,-1]]]],\"labels\":[3,2,-1]}]";

pub(crate) const NETWORKS: &[(&str, [&str; 3])] = &[
    (CROSSING, ["[1,2,3]", "[3,2,1]", "[2,3,1]"]),
    (CROSSING_MODULO_4, ["[1,2,3]", "[3,2,1]", "[2,3,1]"]),
    (CROSSING_WITHOUT_CHARGES, ["[1,2,3]", "[3,2,1]", "[2,3,1]"]),
    (RING, ["[1,2,3]", "[3,1,2]", "[2,3,1]"]),
    (RING_OF_TWO_FACTORS, ["[1,2,3]", "[3,1,2]", "[2,3,1]"]),
    (FUSED, ["[1,2,3,4]", "[3,1,2,4]", "[4,3,2,1]"]),
    (FUSED_MODULO_4, ["[1,2,3,4]", "[3,1,2,4]", "[4,3,2,1]"]),
    (COMBINERS, ["[1,2,3]", "[2,3,1]", "[3,2,1]"]),
    (COMBINERS_OF_BOSONS, ["[1,2,3]", "[2,3,1]", "[3,2,1]"]),
    (COMBINERS_OF_TWO_FACTORS, ["[1,2,3]", "[2,3,1]", "[3,2,1]"]),
];
