//! Dates and their milliseconds from 1970, as Python's datetime gives them.
use fsl_date::{Moment, dates_have_one_text};

#[test]
fn reads_and_prints_dates(rt: HostRuntime) {
    dates_have_one_text();
    let leap = Moment::read(b"2000-02-29T12:34:56.789");
    assert_eq!(rt; leap, Moment::new(951827696789));
    assert_eq!(rt; Moment::read(b"1969-12-31T23:59:59"), Moment::new(-1000));
    if let Some(moment) = leap {
        assert_eq!(rt; &moment.text(), b"2000-02-29T12:34:56.789");
        assert_eq!(rt; moment.ms(), 951827696789);
    }
    assert_eq!(rt; Moment::read(b"2023-02-29T00:00:00"), None);
}

/// Moments are those of ten thousand years, in the order of time. The first one is that of the year 0, which is 366 days long.
#[test]
fn has_the_moments_of_ten_thousand_years(rt: HostRuntime) {
    let first = Moment::new(-62167219200000);
    let last = Moment::new(253402300799999);
    assert_eq!(rt; first, Moment::read(b"0000-01-01T00:00:00"));
    assert_eq!(rt; last, Moment::read(b"9999-12-31T23:59:59.999"));
    assert!(rt; first < last);
    assert_eq!(rt; Moment::new(-62167219200001), None);
    assert_eq!(rt; Moment::new(253402300800000), None);
}
