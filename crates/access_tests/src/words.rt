//! Words that are found in lists of each length, and bits of masks.
use lanes::{find_eq, least, mask_and, mask_any, mask_count};
use std::process::Abort;

#[test]
fn a_word_is_found_at_the_last_place_of_lists_of_1_to_67(rt: HostRuntime) {
    let mut list = [0; 67];
    for last in 0..67 {
        list[last] = 9;
        assert!(rt; find_eq(&list[..last + 1], 9) == Some(last));
        assert!(rt; find_eq(&list[..last], 9).is_none());
        list[last] = 0;
    }
}

#[test]
fn a_word_that_is_there_twice_is_found_at_its_first_place(rt: HostRuntime) {
    assert!(rt; find_eq(&[3, 5, 5], 5) == Some(1));
    assert!(rt; find_eq(&[1, 2, 3, 4, 5, 6, 5, 5, 5], 5) == Some(4));
}

#[test]
fn the_bits_that_two_masks_share_are_counted(rt: HostRuntime) {
    let all = [u64::MAX; 4];
    let ends = [1, 0, 0, 1 << 63];
    assert!(rt; mask_count(mask_and(all, ends)) == 2);
    assert!(rt; mask_count(all) == 256);
    assert!(rt; mask_any(mask_and(all, ends)));
    assert!(rt; !mask_any(mask_and([0, 7, 7, 0], ends)));
}

#[test]
fn the_least_of_words_is_none_of_no_words(rt: HostRuntime) {
    assert!(rt; least(&[5, 3, u64::MAX, 3, 4]) == Some(3));
    assert!(rt; least(&[u64::MAX]) == Some(u64::MAX));
    assert!(rt; least(&[]).is_none());
}
