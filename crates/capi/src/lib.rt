// The calls for C: a slice is a pointer and then its length. Each returns 0 for an answer, or the refusal's number, and puts the values
// that it carries at the front of `values`, as far as it reaches.
#![tactic(auto)]

ghost use Rattle.std.specs.Prelude.{◌≡◌};
ghost use Rattle.parity.specs.Packets.{packets_outcome};
ghost use Rattle.parity.specs.MessageBits.{message_bits_outcome};
ghost use Rattle.parity.specs.Calls.{load_outcome, write_outcome, share_reply, count_reply, split_outcome, take_back_outcome, orthogonalise_outcome, verify_reply, extend_outcome, is_stopping_reply, peel_outcome, rank_reply, encode_outcome, house_outcome, determine_outcome, stopping_sets_outcome, join_outcome};
ghost use Rattle.parity.specs.Block.{block_outcome};
ghost use Rattle.parity.specs.SoftCall.{min_sum_outcome};
ghost use Rattle.parity.specs.SoftRange.{min_sum_range_outcome};
ghost use Rattle.passing.specs.Passed.{Passed, filled};

use parity::Bit;

// Carries n, m and k.
#[unsafe(no_mangle)]
pub extern "C" fn parity_load(record: &[u32], words: &mut [u64], values: &mut [u64]) -> u32
    ensures passed { Passed (load_outcome «record».now words.old).reply values.old values.new result }
    ensures words_after { words.new ≡ (load_outcome «record».now words.old).after }
{
    let loading = record::load(record, words);
    reply::pass(loading, values)
}

// Carries the number of words used.
#[unsafe(no_mangle)]
pub extern "C" fn parity_write(
    words: &[u64],
    n: usize,
    m: usize,
    k: usize,
    record: &mut [u32],
    values: &mut [u64],
) -> u32
    ensures passed { Passed (write_outcome words.now n m k «record».old).reply values.old values.new result }
    ensures record_after { «record».new ≡ (write_outcome words.now n m k «record».old).after }
{
    let writing = record::write(words, n, m, k, record);
    reply::pass(writing, values)
}

// Carries the share and, if it is above 0, the lowest and the highest check that contain both bits.
#[unsafe(no_mangle)]
pub extern "C" fn parity_share(
    words: &[u64],
    n: usize,
    m: usize,
    k: usize,
    u: usize,
    v: usize,
    values: &mut [u64],
) -> u32
    ensures { Passed (share_reply words.now n m k u v) values.old values.new result }
{
    let sharing = cycles::share(words, n, m, k, Bit(u), Bit(v));
    reply::pass(sharing, values)
}

// Carries the cycle count.
#[unsafe(no_mangle)]
pub extern "C" fn parity_count(
    words: &[u64],
    n: usize,
    m: usize,
    k: usize,
    values: &mut [u64],
) -> u32
    ensures { Passed (count_reply words.now n m k) values.old values.new result }
{
    let counting = cycles::count(words, n, m, k);
    reply::pass(counting, values)
}

// Carries the share, the new k, and the lowest and the highest check that contained both bits.
#[unsafe(no_mangle)]
pub extern "C" fn parity_split(
    words: &mut [u64],
    n: usize,
    m: usize,
    k: usize,
    u: usize,
    v: usize,
    values: &mut [u64],
) -> u32
    ensures passed { Passed (split_outcome words.old n m k u v).reply values.old values.new result }
    ensures words_after { words.new ≡ (split_outcome words.old n m k u v).after }
{
    let splitting = split::split(words, n, m, k, Bit(u), Bit(v));
    reply::pass(splitting, values)
}

// Carries the number of other checks that contained the newest added bit, and the new k.
#[unsafe(no_mangle)]
pub extern "C" fn parity_take_back(
    words: &mut [u64],
    n: usize,
    m: usize,
    k: usize,
    values: &mut [u64],
) -> u32
    ensures passed { Passed (take_back_outcome words.old n m k).reply values.old values.new result }
    ensures words_after { words.new ≡ (take_back_outcome words.old n m k).after }
{
    let taking = split::take_back(words, n, m, k);
    reply::pass(taking, values)
}

// Carries the number of splits, their sum, k and, if it made a split, the lowest and the highest check that held the pair of the final one, also when
// refused 9.
#[unsafe(no_mangle)]
pub extern "C" fn parity_orthogonalise(
    words: &mut [u64],
    n: usize,
    m: usize,
    k: usize,
    values: &mut [u64],
) -> u32
    ensures passed { Passed (orthogonalise_outcome words.old n m k).reply values.old values.new result }
    ensures words_after { words.new ≡ (orthogonalise_outcome words.old n m k).after }
{
    let orthogonalising = orthogonalise::orthogonalise(words, n, m, k);
    reply::pass(orthogonalising, values)
}

// Carries 1 for yes, 0 for no.
#[unsafe(no_mangle)]
pub extern "C" fn parity_verify(
    words: &[u64],
    n: usize,
    m: usize,
    k: usize,
    word: &[u8],
    values: &mut [u64],
) -> u32
    ensures { Passed (verify_reply words.now n m k word.now) values.old values.new result }
{
    let verifying = word::verify(words, n, m, k, word);
    reply::pass(verifying, values)
}

// Carries nothing.
#[unsafe(no_mangle)]
pub extern "C" fn parity_extend(
    words: &[u64],
    n: usize,
    m: usize,
    k: usize,
    sent: &[u8],
    word: &mut [u8],
    values: &mut [u64],
) -> u32
    ensures passed { Passed (extend_outcome words.now n m k sent.now word.old).reply values.old values.new result }
    ensures word_after { word.new ≡ (extend_outcome words.now n m k sent.now word.old).after }
{
    let extending = extend::extend(words, n, m, k, sent, word);
    reply::pass(extending, values)
}

// Carries 1 for yes, 0 for no.
#[unsafe(no_mangle)]
pub extern "C" fn parity_is_stopping(
    words: &[u64],
    n: usize,
    m: usize,
    k: usize,
    set: &[u8],
    values: &mut [u64],
) -> u32
    ensures { Passed (is_stopping_reply words.now n m k set.now) values.old values.new result }
{
    let stopping = word::is_stopping(words, n, m, k, set);
    reply::pass(stopping, values)
}

// Carries how many sent bits and how many added bits were recovered, and how many of each are left.
#[unsafe(no_mangle)]
pub extern "C" fn parity_peel(
    words: &[u64],
    n: usize,
    m: usize,
    k: usize,
    word: &mut [u8],
    values: &mut [u64],
) -> u32
    ensures passed { Passed (peel_outcome words.now n m k word.old).reply values.old values.new result }
    ensures word_after { word.new ≡ (peel_outcome words.now n m k word.old).after }
{
    let peeling = peel::peel(words, n, m, k, word);
    reply::pass(peeling, values)
}

// Carries how many sent bits and how many added bits were recovered, and how many of each are left.
#[unsafe(no_mangle)]
pub extern "C" fn parity_determine(
    words: &[u64],
    n: usize,
    m: usize,
    k: usize,
    word: &mut [u8],
    values: &mut [u64],
) -> u32
    ensures passed { Passed (determine_outcome words.now n m k word.old).reply values.old values.new result }
    ensures word_after { word.new ≡ (determine_outcome words.now n m k word.old).after }
{
    let determining = determine::determine(words, n, m, k, word);
    reply::pass(determining, values)
}

// Carries how many sent packets and how many added packets were recovered, how many of each are left, and how many lanes no codeword agrees with.
#[unsafe(no_mangle)]
pub extern "C" fn parity_mend_packets(
    words: &[u64],
    n: usize,
    m: usize,
    k: usize,
    lost: &mut [u8],
    packets: &mut [u64],
    odd: &mut [u64],
    values: &mut [u64],
) -> u32
    ensures passed { Passed (packets_outcome words.now n m k lost.old packets.old odd.old).reply values.old values.new result }
    ensures lost_after { lost.new ≡ (packets_outcome words.now n m k lost.old packets.old odd.old).lost }
    ensures packets_after { packets.new ≡ (packets_outcome words.now n m k lost.old packets.old odd.old).packets }
    ensures odd_after { odd.new ≡ (packets_outcome words.now n m k lost.old packets.old odd.old).odd }
{
    let mending = packets::mend_packets(words, n, m, k, lost, packets, odd);
    reply::pass(mending, values)
}

// Carries the last stage to run, and how many bits the two peelings recovered together.
#[unsafe(no_mangle)]
pub extern "C" fn parity_mend_block(
    words: &[u64],
    n: usize,
    m: usize,
    k: usize,
    word: &mut [u8],
    values: &mut [u64],
) -> u32
    ensures passed { Passed (block_outcome words.now n m k word.old).reply values.old values.new result }
    ensures word_after { word.new ≡ (block_outcome words.now n m k word.old).after }
{
    let mending = block::mend_block(words, n, m, k, word);
    reply::pass(mending, values)
}

// Carries the rank.
#[unsafe(no_mangle)]
pub extern "C" fn parity_rank(
    words: &[u64],
    n: usize,
    m: usize,
    k: usize,
    values: &mut [u64],
) -> u32
    ensures { Passed (rank_reply words.now n m k) values.old values.new result }
{
    let ranking = rank::rank(words, n, m, k);
    reply::pass(ranking, values)
}

// Carries nothing.
#[unsafe(no_mangle)]
pub extern "C" fn parity_encode(
    words: &[u64],
    n: usize,
    m: usize,
    k: usize,
    message: &[u8],
    word: &mut [u8],
    values: &mut [u64],
) -> u32
    ensures passed { Passed (encode_outcome words.now n m k message.now word.old).reply values.old values.new result }
    ensures word_after { word.new ≡ (encode_outcome words.now n m k message.now word.old).after }
{
    let encoding = encode::encode(words, n, m, k, message, word);
    reply::pass(encoding, values)
}

// Carries nothing.
#[unsafe(no_mangle)]
pub extern "C" fn parity_message_bits(
    words: &[u64],
    n: usize,
    m: usize,
    k: usize,
    set: &mut [u8],
    values: &mut [u64],
) -> u32
    ensures passed { Passed (message_bits_outcome words.now n m k set.old).reply values.old values.new result }
    ensures set_after { set.new ≡ (message_bits_outcome words.now n m k set.old).after }
{
    let marking = message_bits::message_bits(words, n, m, k, set);
    reply::pass(marking, values)
}

// Carries n and m.
#[unsafe(no_mangle)]
pub extern "C" fn parity_house_code(name: usize, words: &mut [u64], values: &mut [u64]) -> u32
    ensures passed { Passed (house_outcome name words.old).reply values.old values.new result }
    ensures words_after { words.new ≡ (house_outcome name words.old).after }
{
    let copying = house::copy(name, words);
    reply::pass(copying, values)
}

// Carries how many sets there are.
#[unsafe(no_mangle)]
pub extern "C" fn parity_stopping_sets(
    words: &[u64],
    n: usize,
    m: usize,
    k: usize,
    t: usize,
    sets: &mut [u16],
    values: &mut [u64],
) -> u32
    ensures passed { Passed (stopping_sets_outcome words.now n m k t sets.old).reply values.old values.new result }
    ensures sets_after { sets.new ≡ (stopping_sets_outcome words.now n m k t sets.old).after }
{
    let listing = stopping_sets::list(words, n, m, k, t, sets);
    reply::pass(listing, values)
}

// Carries the number of checks.
#[unsafe(no_mangle)]
pub extern "C" fn parity_join(
    words1: &[u64],
    n1: usize,
    m1: usize,
    k1: usize,
    words2: &[u64],
    n2: usize,
    m2: usize,
    k2: usize,
    words3: &mut [u64],
    values: &mut [u64],
) -> u32
    ensures passed { Passed (join_outcome words1.now n1 m1 k1 words2.now n2 m2 k2 words3.old).reply values.old values.new result }
    ensures words3_after { words3.new ≡ (join_outcome words1.now n1 m1 k1 words2.now n2 m2 k2 words3.old).after }
{
    let joining = join::join(words1, n1, m1, k1, words2, n2, m2, k2, words3);
    reply::pass(joining, values)
}

// Carries nothing.
#[unsafe(no_mangle)]
pub extern "C" fn parity_min_sum(
    words: &[u64],
    n: usize,
    m: usize,
    k: usize,
    rounds: usize,
    word: &mut [u8],
    floats: &mut [f32],
    message_bytes: &mut [u8],
    message_floats: &mut [f32],
    values: &mut [u64],
) -> u32
    ensures passed { Passed (min_sum_outcome words.now n m k rounds word.old floats.old message_bytes.old message_floats.old).reply values.old values.new result }
    ensures word_after { word.new ≡ (min_sum_outcome words.now n m k rounds word.old floats.old message_bytes.old message_floats.old).word }
    ensures floats_after { floats.new ≡ (min_sum_outcome words.now n m k rounds word.old floats.old message_bytes.old message_floats.old).floats }
    ensures message_bytes_after { message_bytes.new ≡ (min_sum_outcome words.now n m k rounds word.old floats.old message_bytes.old message_floats.old).bytes_of_messages }
    ensures message_floats_after { message_floats.new ≡ (min_sum_outcome words.now n m k rounds word.old floats.old message_bytes.old message_floats.old).floats_of_messages }
{
    let decoding = min_sum::min_sum(
        words,
        n,
        m,
        k,
        rounds,
        word,
        floats,
        message_bytes,
        message_floats,
    );
    reply::pass(decoding, values)
}

// Carries 0 for sure 0, or 3 for a range, whose low and high are put at the front of `ends`.
#[unsafe(no_mangle)]
pub extern "C" fn parity_min_sum_range(
    lows: &[f32],
    highs: &[f32],
    ends: &mut [f32],
    values: &mut [u64],
) -> u32
    ensures passed { Passed (min_sum_range_outcome lows.now highs.now).reply values.old values.new result }
    ensures ends_after { ends.new ≡ filled (min_sum_range_outcome lows.now highs.now).ends ends.old }
{
    let ranging = min_sum_range::range(lows, highs);
    let numbered = reply::ranging(ranging, ends);
    passing::pass(numbered, values)
}
