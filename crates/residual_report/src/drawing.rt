// The picture of a residual, written to an open file: its head, a panel with its stretches for each channel, and its
// tail. What each part says is proved in picture.
use part_file::write;
use sizes::{begun, plus};
use system::System;

// The number of channels of the files and the one that is shown, none for all; the number of frames compared, their
// rate, and the number of stretches in which they are shown.
#[derive(Clone, Copy)]
pub(crate) struct Drawing {
    pub channels: u8,
    pub channel: Option<u8>,
    pub frames: u64,
    pub rate: u32,
    pub stretches: u32,
}

// The peaks are those of the samples and then of the differences of channel 1, followed by those of channel 2, with
// 1000 places for each.
pub(crate) fn draw(
    system: &System,
    name: &[u8],
    fd: i32,
    drawing: Drawing,
    first: &[u8],
    second: &[u8],
    peaks: &[u32],
) -> bool {
    if !write_head(system, name, fd, drawing.channels, first, second) {
        return false;
    }
    if drawing.channel != Some(2) && !write_panel(system, name, fd, drawing, 1, peaks, 0) {
        return false;
    }
    if drawing.channels == 2
        && drawing.channel != Some(1)
        && !write_panel(system, name, fd, drawing, 2, peaks, 2000)
    {
        return false;
    }
    write_tail(system, name, fd)
}

// The page has room for two names of 4096 bytes, of which each byte may become five.
fn write_head(
    system: &System,
    name: &[u8],
    fd: i32,
    channels: u8,
    first: &[u8],
    second: &[u8],
) -> bool {
    let mut page = [0u8; 65536];
    let at = picture::put_head(&mut page, 0, channels, first, second);
    write(system, b"residual", name, fd, begun(&page, at))
}

fn write_tail(system: &System, name: &[u8], fd: i32) -> bool {
    let mut page = [0u8; 64];
    let at = picture::put_tail(&mut page, 0);
    write(system, b"residual", name, fd, begun(&page, at))
}

fn write_panel(
    system: &System,
    name: &[u8],
    fd: i32,
    drawing: Drawing,
    channel: u8,
    peaks: &[u32],
    from: usize,
) -> bool {
    let mut page = [0u8; 4096];
    let at = picture::put_panel(&mut page, 0, channel, drawing.frames, drawing.rate);
    if !write(system, b"residual", name, fd, begun(&page, at)) {
        return false;
    }
    if !write_stretches(system, name, fd, drawing.stretches, peaks, from) {
        return false;
    }
    write_panel_end(system, name, fd)
}

fn write_panel_end(system: &System, name: &[u8], fd: i32) -> bool {
    let mut page = [0u8; 256];
    let at = picture::put_panel_end(&mut page, 0);
    write(system, b"residual", name, fd, begun(&page, at))
}

fn write_stretches(
    system: &System,
    name: &[u8],
    fd: i32,
    n: u32,
    peaks: &[u32],
    from: usize,
) -> bool {
    (0..n).all(|k| {
        let at = plus(from, k as usize);
        let sample = peak(peaks, at);
        let difference = peak(peaks, plus(at, 1000));
        write_stretch(system, name, fd, k, n, sample, difference)
    })
}

fn write_stretch(
    system: &System,
    name: &[u8],
    fd: i32,
    k: u32,
    n: u32,
    sample: u32,
    difference: u32,
) -> bool {
    let mut line = [0u8; 256];
    let at = picture::put_stretch(&mut line, 0, k, n, sample, difference);
    write(system, b"residual", name, fd, begun(&line, at))
}

fn peak(peaks: &[u32], at: usize) -> u32 {
    peaks.get(at).copied().unwrap_or(0)
}
