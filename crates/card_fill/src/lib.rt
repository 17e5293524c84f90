// A block of a card as it is written: 512 zeros, filled and then given its check octets (SCOPE 3.16).
#![tactic(auto)]

ghost use Rattle.std.specs.Prelude.{◌≡◌, ◌++◌, ◌+◌, ◌*◌, ◌<◌, ◌≤◌, length, take};
ghost use Rattle.ground.specs.Lists.{part, laid};
ghost use Rattle.ground.specs.Words.{octets_of};
ghost use Rattle.card_block.specs.Block.{block_size, summed};
ghost use Rattle.card_fill.specs.Filled.{head_of, zeros, checks_of, block_of};

// Lays the octets of the words of src over b from the place `at` on.
fn put_words(b: &mut [u8], at: usize, src: &[u32])
    requires { at + length src.now * 4 ≤ length b.old }
    ensures { b.new ≡ laid b.old at (octets_of src.now) }
{
    for (i, word) in src.iter().enumerate() {
        ground::put_word(b, at + i * 4, *word);
    }
}

// 512 zeros with a head.
fn headed(number: usize, kind: u8, count: usize) -> [u8; 512]
    requires number_bound { number < 65536 }
    requires count_bound { count < 65536 }
    ensures { result ≡ head_of number kind count ++ zeros 507 }
{
    let [n0, n1] = (number as u16).to_le_bytes();
    let [c0, c1] = (count as u16).to_le_bytes();
    let mut b = [0u8; 512];
    ground::copy(&mut b[..card_block::HEAD], &[n0, n1, kind, c0, c1]);
    b
}

// The check octets of a block, by the sums that the reader makes too (SCOPE 3.4).
fn put_checks(b: &mut [u8])
    requires { length b.old ≡ block_size }
    ensures { b.new ≡ laid b.old summed (checks_of (take summed b.old)) }
{
    let s = card_block::sums(&b[0..510]);
    b[510] = s.plain as u8;
    b[511] = s.running as u8;
}

// The block of a number and a kind that has n words of src, from a place on, as its records.
pub fn words_block(
    number: usize,
    kind: u8,
    count: usize,
    src: &[u32],
    from: usize,
    n: usize,
) -> [u8; 512]
    requires number_bound { number < 65536 }
    requires count_bound { count < 65536 }
    requires n_bound { n ≤ 126 }
    requires n_in_bounds { from + n ≤ length src.now }
    ensures { result ≡ block_of number kind count (octets_of (part src.now from (from + n))) }
{
    let mut b = headed(number, kind, count);
    put_words(&mut b, card_block::HEAD, &src[from..from + n]);
    put_checks(&mut b);
    b
}

// The block of a number that has n octets of src, from a place on, as its records.
pub fn octets_block(
    number: usize,
    kind: u8,
    count: usize,
    src: &[u8],
    from: usize,
    n: usize,
) -> [u8; 512]
    requires number_bound { number < 65536 }
    requires count_bound { count < 65536 }
    requires n_bound { n ≤ 505 }
    requires n_in_bounds { from + n ≤ length src.now }
    ensures { result ≡ block_of number kind count (part src.now from (from + n)) }
{
    let mut b = headed(number, kind, count);
    ground::copy(
        &mut b[card_block::HEAD..card_block::HEAD + n],
        &src[from..from + n],
    );
    put_checks(&mut b);
    b
}

// Lays a block over a lent card, at its place.
pub fn put_block(card: &mut [u8], i: usize, b: &[u8])
    requires block_size_in_bounds { i * block_size + block_size ≤ length card.old }
    requires b_len { length b.now ≡ block_size }
    ensures { card.new ≡ laid card.old (i * block_size) b.now }
{
    let start = i * card_block::BLOCK;
    ground::copy(&mut card[start..start + card_block::BLOCK], b);
}
