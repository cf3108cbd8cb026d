// Each wanted stamp and number of hundredths was computed by Python's datetime and zoneinfo, and those of the last two rules by a
// script that looks at each second of the days around.
use crate::comparing::{holds, same};
use bac_values::{FIRST_MOMENT, LAST_MOMENT, Stamp};
use civil_stamp::{
    LocalMoment, Zone, ZoneFault, ZoneRange, hundredths_of, stamp_of, weekday_and_time,
};
use std::process::Abort;
use std::test::Fail;

fn octets_at(moment: u64, minutes: i16) -> Option<[u8; 8]> {
    if moment < FIRST_MOMENT || moment > LAST_MOMENT {
        return None;
    }
    let zone = Zone::fixed(minutes).ok()?;
    Some(stamp_of(moment, &zone).octets)
}

/// At each moment the clock shows these octets, so many minutes ahead of UTC.
fn expect_octets(rt: &impl Abort, rows: &[(u64, i16, [u8; 8])]) {
    for (moment, minutes, octets) in rows {
        same(rt, &octets_at(*moment, *minutes), &Some(*octets));
    }
}

#[test]
fn shows_the_first_moment(rt: HostRuntime) {
    expect_octets(
        &rt,
        &[
            (FIRST_MOMENT, 0, [100, 1, 1, 6, 0, 0, 0, 0]),
            (FIRST_MOMENT, -840, [99, 12, 31, 5, 10, 0, 0, 0]),
            (FIRST_MOMENT, 840, [100, 1, 1, 6, 14, 0, 0, 0]),
        ],
    );
}

#[test]
fn shows_the_last_moment(rt: HostRuntime) {
    expect_octets(
        &rt,
        &[
            (LAST_MOMENT, 0, [199, 12, 31, 4, 23, 59, 59, 99]),
            (LAST_MOMENT, -840, [199, 12, 31, 4, 9, 59, 59, 99]),
            (LAST_MOMENT, 840, [200, 1, 1, 5, 13, 59, 59, 99]),
        ],
    );
}

#[test]
fn shows_a_leap_day(rt: HostRuntime) {
    expect_octets(
        &rt,
        &[
            (1_709_210_096_789, 0, [124, 2, 29, 4, 12, 34, 56, 78]),
            (1_709_210_096_789, 840, [124, 3, 1, 5, 2, 34, 56, 78]),
            (951_782_400_000, -60, [100, 2, 28, 1, 23, 0, 0, 0]),
        ],
    );
}

#[test]
fn shows_the_end_of_a_year(rt: HostRuntime) {
    expect_octets(
        &rt,
        &[
            (1_735_689_599_999, 0, [124, 12, 31, 2, 23, 59, 59, 99]),
            (1_735_689_599_999, 60, [125, 1, 1, 3, 0, 59, 59, 99]),
            (1_704_067_199_990, 0, [123, 12, 31, 7, 23, 59, 59, 99]),
        ],
    );
}

#[test]
fn tells_weekday_and_time(rt: HostRuntime) -> Result<(), Fail> {
    let utc = Zone::fixed(0).unwrap();
    same(
        &rt,
        &weekday_and_time(1_700_000_000_000, &utc),
        &(2, 8_000_000),
    );
    same(
        &rt,
        &weekday_and_time(1_704_067_199_990, &utc),
        &(7, 8_639_999),
    );
    Ok(())
}

#[test]
fn a_local_moment_has_the_date_and_time_of_its_zone(rt: HostRuntime) -> Result<(), Fail> {
    // The last hundredth of the 31st of December 2023 in UTC, a Sunday, and an hour east of it a Monday.
    let moment = 1_704_067_199_990;
    let at = LocalMoment::new(moment, &Zone::fixed(60)?);
    same(&rt, &at.moment(), &moment);
    same(&rt, &at.stamp().octets, &[124, 1, 1, 1, 0, 59, 59, 99]);
    same(&rt, &at.weekday_and_time(), &(1, 359_999));
    let utc = LocalMoment::new(moment, &Zone::fixed(0)?);
    same(&rt, &utc.stamp().octets, &[123, 12, 31, 7, 23, 59, 59, 99]);
    holds(&rt, utc != at);
    Ok(())
}

#[test]
fn refuses_zones_beyond_fourteen_hours(rt: HostRuntime) -> Result<(), Fail> {
    same(&rt, &Zone::fixed(841), &Err(ZoneRange));
    same(&rt, &Zone::fixed(-841), &Err(ZoneRange));
    holds(&rt, Zone::fixed(840).is_ok());
    Ok(())
}

// The rules of Berlin, Sydney, Havana, Santiago de Chile and Dublin, whose summer time is its standard time.
const BERLIN: &str = "CET-1CEST,M3.5.0,M10.5.0/3";

const SYDNEY: &str = "AEST-10AEDT,M10.1.0,M4.1.0/3";

const HAVANA: &str = "CST5CDT,M3.2.0/0,M11.1.0/1";

const SANTIAGO: &str = "<-04>4<-03>,M9.1.6/24,M4.1.6/24";

const DUBLIN: &str = "IST-1GMT0,M10.5.0,M3.5.0/1";

fn octets_by_rule(moment: u64, rule: &str) -> Option<[u8; 8]> {
    if moment < FIRST_MOMENT || moment > LAST_MOMENT {
        return None;
    }
    let zone = Zone::rule(rule).ok()?;
    Some(stamp_of(moment, &zone).octets)
}

fn hundredths_by_rule(octets: [u8; 8], rule: &str) -> Option<i64> {
    let zone = Zone::rule(rule).ok()?;
    hundredths_of(&Stamp { octets }, &zone)
}

/// At each moment the clock shows these octets, by the rule.
fn expect_by_rule(rt: &impl Abort, rule: &str, rows: &[(u64, [u8; 8])]) {
    for (moment, octets) in rows {
        same(rt, &octets_by_rule(*moment, rule), &Some(*octets));
    }
}

/// The clock shows each stamp first at so many hundredths, by the rule.
fn expect_hundredths(rt: &impl Abort, rule: &str, rows: &[([u8; 8], i64)]) {
    for (octets, hundredths) in rows {
        same(rt, &hundredths_by_rule(*octets, rule), &Some(*hundredths));
    }
}

#[test]
fn puts_the_clock_forward_and_back(rt: HostRuntime) {
    expect_by_rule(
        &rt,
        BERLIN,
        &[
            (
                1_711_846_799_990,
                [0x7c, 0x03, 0x1f, 0x07, 0x01, 0x3b, 0x3b, 0x63],
            ),
            (
                1_711_846_800_000,
                [0x7c, 0x03, 0x1f, 0x07, 0x03, 0x00, 0x00, 0x00],
            ),
            (
                1_729_989_000_000,
                [0x7c, 0x0a, 0x1b, 0x07, 0x02, 0x1e, 0x00, 0x00],
            ),
            (
                1_729_992_600_000,
                [0x7c, 0x0a, 0x1b, 0x07, 0x02, 0x1e, 0x00, 0x00],
            ),
        ],
    );
}

#[test]
fn tells_when_the_clock_showed_a_stamp(rt: HostRuntime) {
    let in_a_fold = [0x7c, 0x0a, 0x1b, 0x07, 0x02, 0x1e, 0x00, 0x00];
    let in_a_gap = [0x7c, 0x03, 0x1f, 0x07, 0x02, 0x1e, 0x00, 0x00];
    let rows = [(in_a_fold, 172_998_900_000), (in_a_gap, 171_184_860_000)];
    expect_hundredths(&rt, BERLIN, &rows);
    let before_1970 = [69, 12, 31, 3, 23, 59, 59, 99];
    expect_hundredths(&rt, "UTC0", &[(before_1970, -1)]);
}

#[test]
fn has_summer_at_the_turn_of_the_year_in_the_south(rt: HostRuntime) {
    expect_by_rule(
        &rt,
        SYDNEY,
        &[
            (1_704_027_600_000, [124, 1, 1, 1, 0, 0, 0, 0]),
            (1_712_419_199_990, [124, 4, 7, 7, 2, 59, 59, 99]),
            (1_712_419_200_000, [124, 4, 7, 7, 2, 0, 0, 0]),
            (1_728_144_000_000, [124, 10, 6, 7, 3, 0, 0, 0]),
        ],
    );
    let fold_and_gap = [
        ([124, 4, 7, 7, 2, 30, 0, 0], 171_241_740_000),
        ([124, 10, 6, 7, 2, 30, 0, 0], 172_814_580_000),
    ];
    expect_hundredths(&rt, SYDNEY, &fold_and_gap);
}

#[test]
fn has_a_fold_and_a_gap_at_midnight(rt: HostRuntime) {
    expect_by_rule(
        &rt,
        HAVANA,
        &[
            (1_730_609_999_990, [124, 11, 3, 7, 0, 59, 59, 99]),
            (1_730_610_000_000, [124, 11, 3, 7, 0, 0, 0, 0]),
            (1_710_046_800_000, [124, 3, 10, 7, 1, 0, 0, 0]),
        ],
    );
    let fold_and_gap = [
        ([124, 11, 3, 7, 0, 30, 0, 0], 173_060_820_000),
        ([124, 3, 10, 7, 0, 30, 0, 0], 171_004_860_000),
    ];
    expect_hundredths(&rt, HAVANA, &fold_and_gap);
}

#[test]
fn has_a_day_that_ends_twice(rt: HostRuntime) {
    expect_by_rule(
        &rt,
        SANTIAGO,
        &[
            (1_712_458_799_990, [124, 4, 6, 6, 23, 59, 59, 99]),
            (1_712_458_800_000, [124, 4, 6, 6, 23, 0, 0, 0]),
        ],
    );
    let fold_and_gap = [
        ([124, 4, 6, 6, 23, 30, 0, 0], 171_245_700_000),
        ([124, 9, 8, 7, 0, 30, 0, 0], 172_576_980_000),
    ];
    expect_hundredths(&rt, SANTIAGO, &fold_and_gap);
}

#[test]
fn has_a_winter_time_that_is_behind(rt: HostRuntime) {
    expect_by_rule(
        &rt,
        DUBLIN,
        &[
            (1_729_990_800_000, [124, 10, 27, 7, 1, 0, 0, 0]),
            (1_711_846_800_000, [124, 3, 31, 7, 2, 0, 0, 0]),
        ],
    );
    let fold_and_gap = [
        ([124, 10, 27, 7, 1, 30, 0, 0], 172_998_900_000),
        ([124, 3, 31, 7, 1, 30, 0, 0], 171_184_860_000),
    ];
    expect_hundredths(&rt, DUBLIN, &fold_and_gap);
}

// Daylight saving time that starts with the year and ends, as the clock shows it, an hour behind it: the clock is never put.
const SUMMER_ALL_YEAR: &str = "XXX-1YYY-2,J1/0,J365/25";

// Daylight saving time all year but for an hour: the clock is put back by two hours, and an hour later forward by two.
const WINTER_FOR_AN_HOUR: &str = "AAA0BBB-2,J100/0,J100/1";

#[test]
fn has_summer_at_the_turn_of_the_year_without_a_fold(rt: HostRuntime) {
    expect_by_rule(
        &rt,
        SUMMER_ALL_YEAR,
        &[
            (1_735_684_200_000, [125, 1, 1, 3, 0, 30, 0, 0]),
            (1_735_698_600_000, [125, 1, 1, 3, 4, 30, 0, 0]),
        ],
    );
    let around_new_year = [
        ([124, 12, 31, 2, 23, 30, 0, 0], 173_568_060_000),
        ([125, 1, 1, 3, 0, 30, 0, 0], 173_568_420_000),
        ([125, 1, 1, 3, 0, 59, 59, 99], 173_568_599_999),
        ([125, 1, 1, 3, 2, 30, 0, 0], 173_569_140_000),
    ];
    expect_hundredths(&rt, SUMMER_ALL_YEAR, &around_new_year);
}

#[test]
fn has_a_fold_and_a_gap_on_one_night(rt: HostRuntime) {
    expect_by_rule(
        &rt,
        WINTER_FOR_AN_HOUR,
        &[
            (1_712_700_000_000, [124, 4, 10, 3, 0, 0, 0, 0]),
            (1_712_705_400_000, [124, 4, 9, 2, 23, 30, 0, 0]),
            (1_712_709_000_000, [124, 4, 10, 3, 2, 30, 0, 0]),
        ],
    );
    let fold_and_gap = [
        ([124, 4, 9, 2, 23, 30, 0, 0], 171_269_820_000),
        ([124, 4, 10, 3, 0, 30, 0, 0], 171_270_180_000),
        ([124, 4, 10, 3, 1, 30, 0, 0], 171_271_260_000),
        ([124, 4, 10, 3, 2, 0, 0, 0], 171_270_720_000),
        ([124, 7, 1, 1, 12, 0, 0, 0], 171_982_800_000),
    ];
    expect_hundredths(&rt, WINTER_FOR_AN_HOUR, &fold_and_gap);
}

#[test]
fn tells_nothing_of_what_is_no_civil_time(rt: HostRuntime) -> Result<(), Fail> {
    let utc = Zone::fixed(0)?;
    for octets in [
        [124, 13, 1, 1, 0, 0, 0, 0],
        [124, 2, 30, 5, 0, 0, 0, 0],
        [124, 1, 0, 1, 0, 0, 0, 0],
        [124, 1, 1, 1, 24, 0, 0, 0],
        [124, 1, 1, 1, 0, 0, 0, 100],
        [255, 255, 255, 255, 255, 255, 255, 255],
    ] {
        same(&rt, &hundredths_of(&Stamp { octets }, &utc), &None);
    }
    Ok(())
}

#[test]
fn does_not_look_at_the_weekday(rt: HostRuntime) {
    // No Monday.
    expect_hundredths(
        &rt,
        "UTC0",
        &[([124, 1, 1, 255, 0, 0, 0, 0], 170_406_720_000)],
    );
}

#[test]
fn refuses_what_is_no_rule(rt: HostRuntime) -> Result<(), Fail> {
    for text in ["X", "", "CET-1CEST", "CET-1 "] {
        same(&rt, &Zone::rule(text), &Err(ZoneFault::NotARule));
    }
    Ok(())
}

#[test]
fn keeps_no_names_of_times(rt: HostRuntime) -> Result<(), Fail> {
    let named_otherwise = Zone::rule("MEZ-1MESZ,M3.5.0,M10.5.0/3");
    holds(&rt, Zone::rule(BERLIN) == named_otherwise);
    holds(&rt, Zone::rule("CET-1").ok() == Zone::fixed(60).ok());
    holds(&rt, Zone::rule(BERLIN).ok() != Zone::fixed(60).ok());
    Ok(())
}
