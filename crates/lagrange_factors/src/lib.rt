// Two rounds of the original's inner loop over Lagrange weights, for eight nodes at once (000).
// The differences of two nodes are computed and not written as constants: the compiler would turn a division by a power
// of two into a product and no longer work on two lanes at a time.
#![tactic(auto)]

ghost use Rattle.std.specs.Prelude.{◌≡◌};
ghost use Rattle.std.specs.Float.{binary64};
ghost use Rattle.std.specs.Float.Ieee.{sub};
ghost use Rattle.lagrange_factors.specs.Lanes.{above_of, below_of, turned, passed};

// K7. The distances of the nodes from the first: upwards here, downwards in the next function. They serve for any two
// nodes, because a difference depends only on how far two nodes lie apart.
pub fn above(own: [f64; 8]) -> [f64; 8]
    ensures { result ≡ above_of own }
{
    [
        own[0] - own[0],
        own[1] - own[0],
        own[2] - own[0],
        own[3] - own[0],
        own[4] - own[0],
        own[5] - own[0],
        own[6] - own[0],
        own[7] - own[0],
    ]
}

pub fn below(own: [f64; 8]) -> [f64; 8]
    ensures { result ≡ below_of own }
{
    [
        own[0] - own[0],
        own[0] - own[1],
        own[0] - own[2],
        own[0] - own[3],
        own[0] - own[4],
        own[0] - own[5],
        own[0] - own[6],
        own[0] - own[7],
    ]
}

// Multiplies in the factors of the first two of the eight nodes; the next three functions do the other pairs. The
// position less each of the two nodes is a and b. A weight has no factor for its own node.
pub fn first_pair(w: [f64; 8], up: [f64; 8], down: [f64; 8], a: f64, b: f64) -> [f64; 8]
    ensures { result ≡ turned up down a b 0 w }
{
    [
        w[0] * (b / down[1]),
        w[1] * (a / up[1]),
        w[2] * (a / up[2]) * (b / up[1]),
        w[3] * (a / up[3]) * (b / up[2]),
        w[4] * (a / up[4]) * (b / up[3]),
        w[5] * (a / up[5]) * (b / up[4]),
        w[6] * (a / up[6]) * (b / up[5]),
        w[7] * (a / up[7]) * (b / up[6]),
    ]
}

pub fn second_pair(w: [f64; 8], up: [f64; 8], down: [f64; 8], a: f64, b: f64) -> [f64; 8]
    ensures { result ≡ turned up down a b 2 w }
{
    [
        w[0] * (a / down[2]) * (b / down[3]),
        w[1] * (a / down[1]) * (b / down[2]),
        w[2] * (b / down[1]),
        w[3] * (a / up[1]),
        w[4] * (a / up[2]) * (b / up[1]),
        w[5] * (a / up[3]) * (b / up[2]),
        w[6] * (a / up[4]) * (b / up[3]),
        w[7] * (a / up[5]) * (b / up[4]),
    ]
}

pub fn third_pair(w: [f64; 8], up: [f64; 8], down: [f64; 8], a: f64, b: f64) -> [f64; 8]
    ensures { result ≡ turned up down a b 4 w }
{
    [
        w[0] * (a / down[4]) * (b / down[5]),
        w[1] * (a / down[3]) * (b / down[4]),
        w[2] * (a / down[2]) * (b / down[3]),
        w[3] * (a / down[1]) * (b / down[2]),
        w[4] * (b / down[1]),
        w[5] * (a / up[1]),
        w[6] * (a / up[2]) * (b / up[1]),
        w[7] * (a / up[3]) * (b / up[2]),
    ]
}

pub fn fourth_pair(w: [f64; 8], up: [f64; 8], down: [f64; 8], a: f64, b: f64) -> [f64; 8]
    ensures { result ≡ turned up down a b 6 w }
{
    [
        w[0] * (a / down[6]) * (b / down[7]),
        w[1] * (a / down[5]) * (b / down[6]),
        w[2] * (a / down[4]) * (b / down[5]),
        w[3] * (a / down[3]) * (b / down[4]),
        w[4] * (a / down[2]) * (b / down[3]),
        w[5] * (a / down[1]) * (b / down[2]),
        w[6] * (b / down[1]),
        w[7] * (a / up[1]),
    ]
}

// Multiplies in the factors of two nodes that are not among the eight.
pub fn pass(w: [f64; 8], own: [f64; 8], local: f64, other: f64, next: f64) -> [f64; 8]
    ensures { result ≡ passed own other next (sub binary64 local other) (sub binary64 local next) w }
{
    let a = local - other;
    let b = local - next;
    [
        w[0] * (a / (own[0] - other)) * (b / (own[0] - next)),
        w[1] * (a / (own[1] - other)) * (b / (own[1] - next)),
        w[2] * (a / (own[2] - other)) * (b / (own[2] - next)),
        w[3] * (a / (own[3] - other)) * (b / (own[3] - next)),
        w[4] * (a / (own[4] - other)) * (b / (own[4] - next)),
        w[5] * (a / (own[5] - other)) * (b / (own[5] - next)),
        w[6] * (a / (own[6] - other)) * (b / (own[6] - next)),
        w[7] * (a / (own[7] - other)) * (b / (own[7] - next)),
    ]
}
