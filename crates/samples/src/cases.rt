// The words of document 01's matrices.

// {0,3,4,6} {1,3,5,6} {2,4,5,6}, n = 7.
pub fn a() -> [u64; 4096] {
    let mut words = [0u64; 4096];
    words[0] = 0b1011001;
    words[8] = 0b1101010;
    words[16] = 0b1110100;
    words
}

// A orthogonalised: {0,4,7} {1,5,7} {2,4,5,6} {3,6,7}, k = 1.
pub fn b() -> [u64; 4096] {
    let mut words = [0u64; 4096];
    words[0] = 0b10010001;
    words[8] = 0b10100010;
    words[16] = 0b1110100;
    words[24] = 0b11001000;
    words
}

// {0,1,2,3} {0,1,4,5} {0,2,6}, n = 7.
pub fn c() -> [u64; 4096] {
    let mut words = [0u64; 4096];
    words[0] = 0b1111;
    words[8] = 0b110011;
    words[16] = 0b1000101;
    words
}

// C orthogonalised: {2,3,7} {4,5,7} {0,2,6} {0,1,7}, k = 1.
pub fn d() -> [u64; 4096] {
    let mut words = [0u64; 4096];
    words[0] = 0b10001100;
    words[8] = 0b10110000;
    words[16] = 0b1000101;
    words[24] = 0b10000011;
    words
}

// {0,1,2} twice, n = 3.
pub fn e() -> [u64; 4096] {
    let mut words = [0u64; 4096];
    words[0] = 0b111;
    words[8] = 0b111;
    words
}

// {0} {0,1}, n = 2.
pub fn i() -> [u64; 4096] {
    let mut words = [0u64; 4096];
    words[0] = 0b1;
    words[8] = 0b11;
    words
}

// Check c contains bit (c + e) mod 23 for e in 0, 1, 2, 3, 4, 7, 10, 12; n = 23.
pub fn l() -> [u64; 4096] {
    let mut words = [0u64; 4096];
    let mut row: u64 = 0b1010010011111;
    for c in 0..23 {
        words[c * 8] = row;
        row = ((row << 1) | (row >> 22)) & 0x7fffff;
    }
    words
}
