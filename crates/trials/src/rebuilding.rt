// For timing: one hour's cells, over and over.
use crate::answer_code;
use rules::Hour;

// The sum of so many answers, so that none can be left out.
pub fn rebuild_often(h: Hour, out: &mut [i64], by_price: bool, times: usize) -> u64 {
    let mut sum: u64 = 0;
    for turn in 0..times {
        let answer = if by_price {
            reconstruct::price(h, out)
        } else {
            reconstruct::plain(h, out)
        };
        sum = std::num::wrapping_add_u64(sum, answer_code(answer));
    }
    sum
}
