// The weights of eight nodes at once. The factors are multiplied in 000's order, which the roundings depend on.
ghost use Rattle.std.specs.Prelude.{◌≡◌, ◌+◌, ◌*◌, ◌≤◌, ◌<◌, min};
ghost use Rattle.lagrange.specs.Kernel.{num};
ghost use Rattle.lagrange.specs.Eights.{Nodes, Weights};

fn number(n: u64) -> f64
    requires { n ≤ 24 }
    ensures { result ≡ num n }
{
    (n as i64) as f64
}

// The numbers of eight nodes as floats, from `first` on.
fn nodes(first: u64) -> [f64; 8]
    requires { first ≤ 16 }
    ensures { Nodes first result }
{
    [
        number(first),
        number(first + 1),
        number(first + 2),
        number(first + 3),
        number(first + 4),
        number(first + 5),
        number(first + 6),
        number(first + 7),
    ]
}

// Multiplies in the factors of the eight nodes themselves, or of the first pairs of them if there are fewer.
fn among(w: [f64; 8], own: [f64; 8], first: u64, local: f64, pairs: u64) -> [f64; 8]
    requires { (first ≤ 16) × (1 ≤ pairs) × Nodes first own × Weights local first first w }
    ensures { Weights local first (first + 2 * min pairs 4) result }
{
    let up = lagrange_factors::above(own);
    let down = lagrange_factors::below(own);
    let w2 = lagrange_factors::first_pair(w, up, down, local - own[0], local - own[1]);
    if pairs <= 1 {
        return w2;
    }
    let w4 = lagrange_factors::second_pair(w2, up, down, local - own[2], local - own[3]);
    if pairs <= 2 {
        return w4;
    }
    let w6 = lagrange_factors::third_pair(w4, up, down, local - own[4], local - own[5]);
    if pairs <= 3 {
        return w6;
    }
    lagrange_factors::fourth_pair(w6, up, down, local - own[6], local - own[7])
}

// The weights with the factors of the nodes before the eight, which begin at pair f.
fn nodes_before(own: [f64; 8], f: u64, local: f64) -> [f64; 8]
    requires { (f ≤ 8) × Nodes (2 * f) own }
    ensures { Weights local (2 * f) (2 * f) result }
{
    let mut w = [1.0; 8];
    for h in 0..f {
        let v = lagrange_factors::pass(w, own, local, number(2 * h), number(2 * h + 1));
        w = v;
    }
    w
}

// Multiplies in the factors of the nodes behind the eight, if there are any.
fn nodes_behind(w: [f64; 8], own: [f64; 8], f: u64, local: f64, pairs: u64) -> [f64; 8]
    requires { (f ≤ 8) × (pairs ≤ 8) × (f < pairs) × Nodes (2 * f) own
        × Weights local (2 * f) (2 * min (f + 4) pairs) w }
    ensures { Weights local (2 * f) (2 * pairs) result }
{
    let mut w = w;
    for h in f + 4..pairs {
        let v = lagrange_factors::pass(w, own, local, number(2 * h), number(2 * h + 1));
        w = v;
    }
    w
}

// The weights of the eight nodes from pair f on, among 2 * pairs nodes.
pub(crate) fn weights(f: u64, local: f64, pairs: u64) -> [f64; 8]
    requires { (f < pairs) × (pairs ≤ 8) }
    ensures { Weights local (2 * f) (2 * pairs) result }
{
    let own = nodes(2 * f);
    let w = nodes_before(own, f, local);
    let v = among(w, own, 2 * f, local, pairs - f);
    nodes_behind(v, own, f, local, pairs)
}
