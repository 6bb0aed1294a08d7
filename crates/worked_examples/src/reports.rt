//! Reports of short lists of records. The date stands as a word: `date` is `2024-05-01`.

ghost use Rattle.std.specs.Prelude.{◌≡◌, ◌++◌, [], Some, None, codes};
ghost use Rattle.report.specs.UnitText.{unit_text};
ghost use Rattle.report.specs.LotText.{lot_text, yield_text};
ghost use Rattle.report.specs.ResultText.{result_text};
ghost use Rattle.worked_examples.specs.Records.{date, good_cable, marked_unit, reworked_unit};

/// A unit has a line for each of its records, and its test one for what it found.
pub fn a_reworked_unit_is_released()
    ensures { unit_text reworked_unit (codes "SN1") ≡ Some (
        codes "UNIT SN1\nstatus released\n"
        ++ codes "enrolled record 2 " ++ date ++ codes "\n"
        ++ codes "test record 3 " ++ date ++ codes " attempt 1 WIRING opens=1 shorts=0 miswires=0\n"
        ++ codes "  open B: 3\n"
        ++ codes "rework record 4 " ++ date ++ codes "\n"
        ++ codes "test record 5 " ++ date ++ codes " attempt 2 PASS\n"
        ++ codes "released record 6 " ++ date ++ codes "\n") }
{}

/// A serial without an enrolment has no report.
pub fn a_serial_that_is_not_enrolled_has_no_report()
    ensures { unit_text reworked_unit (codes "SN2") ≡ None }
{}

/// A test names who made it and where, and then the results have columns for it.
pub fn a_test_names_its_staff()
    ensures unit { unit_text marked_unit (codes "SN1") ≡ Some (
        codes "UNIT SN1\nstatus passed\n"
        ++ codes "enrolled record 2 " ++ date ++ codes "\n"
        ++ codes "test record 4 " ++ date ++ codes " attempt 1 by OP7 on FX2 PASS\n") }
    ensures results { result_text marked_unit ≡
        codes "record,date,serial,attempt,verdict,opens,shorts,miswires,operator,fixture\n"
        ++ codes "4," ++ date ++ codes ",SN1,1,pass,0,0,0,OP7,FX2\n" }
{}

/// Each test has a row in the results.
pub fn each_test_has_a_row()
    ensures { result_text reworked_unit ≡
        codes "record,date,serial,attempt,verdict,opens,shorts,miswires\n"
        ++ codes "3," ++ date ++ codes ",SN1,1,wiring,1,0,0\n"
        ++ codes "5," ++ date ++ codes ",SN1,2,pass,0,0,0\n" }
{}

/// A lot of one cable, and a lot of nothing.
pub fn a_lot_counts_its_serials_and_tests()
    ensures cable { lot_text good_cable ≡
        codes "LOT REPORT\npart CABLE24 revision 2\nenrolled 1\ntested 1\nfirst pass 1\nyield 100.0%\n"
        ++ codes "results 1 pass 1 wiring 0 parts 0 insulation 0 withstand 0\nreleased 1\nscrapped 0\n" }
    ensures nothing { lot_text [] ≡
        codes "LOT REPORT\npart -\nenrolled 0\ntested 0\nfirst pass 0\nyield -\n"
        ++ codes "results 0 pass 0 wiring 0 parts 0 insulation 0 withstand 0\nreleased 0\nscrapped 0\n" }
{}

/// A yield is rounded to the nearest tenth of a percent.
pub fn two_of_three_are_66_7_percent()
    ensures two { yield_text 2 3 ≡ codes "66.7%" }
    ensures one { yield_text 1 3 ≡ codes "33.3%" }
    ensures none { yield_text 0 3 ≡ codes "0.0%" }
{}
