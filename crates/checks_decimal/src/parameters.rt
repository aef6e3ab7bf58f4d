//! Checks of limits, digits and common parameters, with arrow2's own vectors.
use col_decimal::{adjusted_precision_scale, max_value, number_digits};

#[test]
fn the_greatest_numbers_of_precisions(rt: HostRuntime) {
    let most = 99999999999999999999999999999999999999;
    let limits = [
        max_value(0),
        max_value(1),
        max_value(3),
        max_value(5),
        max_value(6),
    ];
    assert_eq!(rt; limits, [0, 9, 999, 99999, 999999]);
    assert_eq!(rt; max_value(38), most);
}

#[test]
fn numbers_have_as_many_digits_as_they_print(rt: HostRuntime) {
    let cases = [
        (0, 0),
        (9, 1),
        (10, 2),
        (12, 2),
        (123, 3),
        (-123, 3),
        (1234567, 7),
        (-1234567, 7),
        (99999999999999999999999999999999999999, 38),
        (100000000000000000000000000000000000000, 39),
        (i128::MAX, 39),
        (i128::MIN, 39),
    ];
    for (number, digits) in cases {
        assert_eq!(rt; number_digits(number), digits, "{number}");
    }
}

#[test]
fn a_common_type_has_the_more_digits_on_either_side(rt: HostRuntime) {
    assert_eq!(rt; adjusted_precision_scale(5, 4, 7, 2), (9, 4, 2));
    assert_eq!(rt; adjusted_precision_scale(7, 2, 5, 4), (9, 4, 2));
    assert_eq!(rt; adjusted_precision_scale(5, 2, 5, 2), (5, 2, 0));
    assert_eq!(rt; adjusted_precision_scale(38, 38, 38, 0), (76, 38, 38));
}
