// Ranges of one check's min-sum answer, and bad input. A line has the case, and what the call answers: sure 0, or the eight hexadecimal digits of low
// and high.
#![tactic(auto)]

use samples::say::{Digits, Why};
use std::io;

fn line(rt: &impl Print, head: &str, lows: &[f32], highs: &[f32]) -> io::Result<()> {
    match min_sum_range::range(lows, highs) {
        Ok(None) => println!(rt; "{head}: sure 0"),
        Ok(Some(ends)) => println!(rt; "{head}: {} to {}", Digits(ends.low), Digits(ends.high)),
        Err(why) => println!(rt; "{head}: REFUSED {}", Why(why)),
    }
}

fn few_values(rt: &impl Print) -> io::Result<()> {
    line(rt, "no other bits", &[], &[])?;
    line(rt, "one value", &[-1.5], &[2.25])?;
    line(rt, "one value, known", &[-0.1], &[-0.1])?;
    line(rt, "two positive", &[1.0, 2.0], &[3.0, 2.5])?;
    line(rt, "one negative", &[1.0, -2.0], &[3.0, -0.5])
}

fn two_signs(rt: &impl Print) -> io::Result<()> {
    line(rt, "both negative", &[-3.0, -2.0], &[-1.0, -0.5])?;
    line(rt, "one across zero", &[-1.0, 0.5], &[4.0, 2.0])?;
    line(rt, "both across zero", &[-1.0, -0.25], &[3.0, 0.75])
}

fn five_values(rt: &impl Print) -> io::Result<()> {
    line(
        rt,
        "five values",
        &[0.7, -3.0, -1.25, 2.0, -0.3],
        &[1.1, -2.0, 0.9, 6.0, 8.0],
    )?;
    line(
        rt,
        "five values, known",
        &[0.7, -3.0, -1.25, 2.0, -0.3],
        &[0.7, -3.0, -1.25, 2.0, -0.3],
    )
}

fn zeros(rt: &impl Print) -> io::Result<()> {
    line(rt, "one value, minus zero", &[-0.0], &[-0.0])?;
    line(rt, "minus zero to plus zero", &[-0.0], &[0.0])?;
    line(rt, "plus zero to minus zero", &[0.0], &[-0.0])
}

fn ends_zero(rt: &impl Print) -> io::Result<()> {
    line(rt, "low minus zero", &[-0.0, -5.0], &[2.0, -3.0])?;
    line(rt, "high minus zero", &[-2.0, 3.0], &[-0.0, 5.0])?;
    line(
        rt,
        "a zero among others",
        &[-4.0, -0.0, 1.0],
        &[9.0, 0.0, 2.0],
    )?;
    line(rt, "the least floats", &[-1.4e-45, 1.0], &[1.4e-45, 2.0])
}

fn no_number() -> f32 {
    f32::INFINITY - f32::INFINITY
}

fn at_the_limit(rt: &impl Print) -> io::Result<()> {
    line(
        rt,
        "at the limit",
        &[-1048576.0, 1048576.0],
        &[1048576.0, 1048576.0],
    )?;
    line(
        rt,
        "a low above the limit",
        &[1.0, 1048576.125],
        &[2.0, 1048576.125],
    )?;
    line(rt, "a low below it", &[1.0, -1048576.125], &[2.0, 3.0])?;
    line(
        rt,
        "a high above the limit",
        &[1.0, 2.0, 3.0],
        &[2.0, 3.0, 1048576.125],
    )
}

fn not_finite(rt: &impl Print) -> io::Result<()> {
    line(rt, "a low infinite", &[-f32::INFINITY], &[0.0])?;
    line(
        rt,
        "a high that is no number",
        &[1.0, 2.0],
        &[no_number(), f32::INFINITY],
    )?;
    line(
        rt,
        "lows before highs",
        &[1.0, 2.0, no_number()],
        &[f32::INFINITY, 3.0, 4.0],
    )
}

fn crossed(rt: &impl Print) -> io::Result<()> {
    line(
        rt,
        "a low above its high",
        &[1.0, 2.0, 3.0],
        &[1.0, 1.5, 2.0],
    )?;
    line(
        rt,
        "floats before order",
        &[1.0, 2.0, 3.0],
        &[0.5, 1.5, f32::INFINITY],
    )?;
    line(rt, "the next float above", &[1.0000001192092896], &[1.0])
}

fn sizes(rt: &impl Print) -> io::Result<()> {
    let mut lows = [-0.5f32; 512];
    let mut highs = [3.0f32; 512];
    line(rt, "lengths that differ", &lows[..5], &highs[..4])?;
    line(rt, "511 values", &lows[..511], &highs[..511])?;
    line(rt, "512 values", &lows, &highs)?;
    lows[300] = 0.125;
    highs[300] = 0.25;
    line(rt, "511 values, one small", &lows[..511], &highs[..511])?;
    highs[510] = -0.75;
    line(
        rt,
        "511 values, the last crossed",
        &lows[..511],
        &highs[..511],
    )
}

fn main(rt: HostRuntime) -> io::Result<()> {
    few_values(&rt)?;
    two_signs(&rt)?;
    five_values(&rt)?;
    zeros(&rt)?;
    ends_zero(&rt)?;
    at_the_limit(&rt)?;
    not_finite(&rt)?;
    crossed(&rt)?;
    sizes(&rt)
}
