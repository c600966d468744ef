// The polynomials near zero that the elementary functions are made of, by Horner's rule without a division (E5).
#![tactic(auto)]

ghost use Rattle.std.specs.Prelude.{◌≡◌};
ghost use Rattle.polynomials.specs.Horner.{sine_near, cosine_near, power_near};

// Taylor's x - x^3/3! + .. + x^17/17!.
pub fn sine_near(x: f64) -> f64
    ensures { result ≡ sine_near x }
{
    let z: f64 = -(x * x);
    let a: f64 = 7.647163731819816e-13 + z * 2.8114572543455206e-15;
    let b: f64 = 1.6059043836821613e-10 + z * a;
    let c: f64 = 2.505210838544172e-8 + z * b;
    let d: f64 = 2.7557319223985893e-6 + z * c;
    let e: f64 = 0.0001984126984126984 + z * d;
    let f: f64 = 0.008333333333333333 + z * e;
    let g: f64 = 0.16666666666666666 + z * f;
    x * (1.0 + z * g)
}

// Taylor's 1 - x^2/2! + .. - x^18/18!.
pub fn cosine_near(x: f64) -> f64
    ensures { result ≡ cosine_near x }
{
    let z: f64 = -(x * x);
    let a: f64 = 4.779477332387385e-14 + z * 1.5619206968586225e-16;
    let b: f64 = 1.1470745597729725e-11 + z * a;
    let c: f64 = 2.08767569878681e-9 + z * b;
    let d: f64 = 2.755731922398589e-7 + z * c;
    let e: f64 = 0.0000248015873015873 + z * d;
    let f: f64 = 0.001388888888888889 + z * e;
    let g: f64 = 0.041666666666666664 + z * f;
    let h: f64 = 0.5 + z * g;
    1.0 + z * h
}

// Taylor's 1 + y + y^2/2! + .. + y^13/13!, where y is ln 2 times x.
pub fn power_near(x: f64) -> f64
    ensures { result ≡ power_near x }
{
    let y: f64 = 0.6931471805599453 * x;
    let a: f64 = 2.08767569878681e-9 + y * 1.6059043836821613e-10;
    let b: f64 = 2.505210838544172e-8 + y * a;
    let c: f64 = 2.755731922398589e-7 + y * b;
    let d: f64 = 2.7557319223985893e-6 + y * c;
    let e: f64 = 0.0000248015873015873 + y * d;
    let f: f64 = 0.0001984126984126984 + y * e;
    let g: f64 = 0.001388888888888889 + y * f;
    let h: f64 = 0.008333333333333333 + y * g;
    let i: f64 = 0.041666666666666664 + y * h;
    let j: f64 = 0.16666666666666666 + y * i;
    let k: f64 = 0.5 + y * j;
    let l: f64 = 1.0 + y * k;
    1.0 + y * l
}
