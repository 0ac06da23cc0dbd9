// A matrix too long to write out.

// 120 checks that contain 120 bits each.
pub fn full() -> [u64; 4096] {
    let mut words = [0u64; 4096];
    for c in 0..120 {
        words[c * 8] = 0xffff_ffff_ffff_ffff;
        words[c * 8 + 1] = 0x00ff_ffff_ffff_ffff;
    }
    words
}
