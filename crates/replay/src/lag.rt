// Lags: what is left of two outputs once their longest common front is stripped from both.
ghost use Rattle.std.specs.Prelude.{◌≡◌, Decides};
ghost use Rattle.machine.specs.Lag.{lag as lag_of};

// The lag of two outputs.
fn lag<'a>(x: &'a [u32], y: &'a [u32]) -> (&'a [u32], &'a [u32])
    ensures { lag_of x.now y.now ≡ (result.0.now, result.1.now) }
{
    let front = x.iter().zip(y).take_while(|(a, b)| a == b).count();
    (&x[front..], &y[front..])
}

// Whether the outputs x and y have the lag that z and w have.
pub fn same_lag(x: &[u32], y: &[u32], z: &[u32], w: &[u32]) -> bool
    ensures { Decides result (lag_of x.now y.now ≡ lag_of z.now w.now) }
{
    lag(x, y) == lag(z, w)
}
