//! The theme of a workbook.

use part_events::{FailingPackage, MemoryPackage, XlReader, XmlFault};
use std::alloc::Global;
use std::test::Fail;
use test_packages::{events_of, package_front, package_of};
use test_tables::assert_text;
use xlsx_error::XlsxError;
use xlsx_theme::{ThemeColors, read_theme, read_theme_colors};

const PATH: &str = "xl/theme/theme1.xml";

/// A theme of four slots, in 20 events.
const FOUR_SLOTS: &str = r#"
    <a:theme>
        <a:clrScheme name="Office">
            <a:dk1>
                <a:sysClr val="windowText" lastClr="000001"/>
            </a:dk1>
            <a:lt1>
                <a:srgbClr val="FFFFFE"/>
            </a:lt1>
            <a:dk2>
                <a:srgbClr val="1F497D"/>
            </a:dk2>
            <a:lt2>
                <a:srgbClr val="EEECE1"/>
            </a:lt2>
        </a:clrScheme>
    </a:theme>"#;

/// A package whose theme has the first events of this markup.
fn held_package(alloc: Global, markup: &str, count: usize) -> Result<MemoryPackage, XlsxError> {
    package_front(alloc, (PATH, markup), count)
}

/// The theme that a reader of the first events of this markup answers.
fn scheme_in(alloc: Global, markup: &str, count: usize) -> Result<ThemeColors, XlsxError> {
    let mut xml = XlReader::new(alloc, held_package(alloc, markup, count)?);
    if !xml.open(PATH)? {
        return Err(XlsxError::Failed);
    }
    read_theme_colors(&mut xml)
}

/// The colors as a text of their numbers, and a mark behind those of the default theme.
fn told(alloc: Global, theme: &ThemeColors) -> Result<String, Fail> {
    let mut out = String::new(alloc);
    for color in &theme.colors {
        out.push_str(format!(in alloc; "{color} ")?.as_str())?;
    }
    if theme.defaulted {
        out.push_str("default")?;
    }
    Ok(out)
}

/// The colors that a reader of the first events of this markup answers.
fn scheme_told(alloc: Global, markup: &str, count: usize) -> Result<String, Fail> {
    told(alloc, &scheme_in(alloc, markup, count)?)
}

/// The colors of the theme at this path, where the workbook's theme has this markup.
fn theme_told(alloc: Global, markup: &str, path: &str) -> Result<String, Fail> {
    let mut xml = XlReader::new(alloc, package_of(alloc, &[(PATH, markup)])?);
    told(alloc, &read_theme(&mut xml, path)?)
}

const DEFAULT: &str = "#FFFFFF #000000 #EEECE1 #1F497D #4F81BD #C0504D #9BBB59 #8064A2 #4BACC6 \
    #F79646 #0000FF #800080 default";

#[test]
fn light_colors_are_numbered_before_dark_ones(rt: HostRuntime) -> Result<(), Fail> {
    let alloc = rt.alloc();
    let found = scheme_told(alloc, FOUR_SLOTS, 20)?;
    assert_text(&found, "#FFFFFE #000001 #EEECE1 #1F497D ", "told")?;
    Ok(())
}

#[test]
fn a_theme_that_is_cut_is_the_default(rt: HostRuntime) -> Result<(), Fail> {
    let alloc = rt.alloc();
    assert!(rt; events_of(alloc, FOUR_SLOTS)?.len() == 20);
    for count in 0..20usize {
        let mut xml = XlReader::new(alloc, held_package(alloc, FOUR_SLOTS, count)?);
        let theme = read_theme(&mut xml, PATH)?;
        assert!(rt; theme.defaulted == (count < 19), "{count} events");
        let answer = scheme_in(alloc, FOUR_SLOTS, count);
        let unclosed = matches!(&answer, Err(XlsxError::Xml(XmlFault::Unclosed { at }))
            if *at == count as u64);
        assert!(rt; unclosed == (1 < count && count < 19), "{count} events");
    }
    Ok(())
}

/// Slots of each kind, and a stray end behind them: 31 events.
const SLOTS: &str = r#"
    <clrScheme>
        <dk1>
            <srgbClr val="none"/>
            <lt1>
                <sysClr val="80112233" lastClr="none">
                    <srgbClr broken/>
                </sysClr>
            </lt1>
        </dk1>
        <custClr>
            <hlink/>
        </custClr>
        <accent6>
            <srgbClr val="000004" lastClr="000003"/>
        </accent6>
        <folHlink>
            <srgbClr val="000005"/>
        </folHlink>
        <dk2>
            <srgbClr val="000006"/>
            <srgbClr val="000007"/>
        </dk2>
    </clrScheme>
    </stray>"#;

#[test]
fn slots_are_read(rt: HostRuntime) -> Result<(), Fail> {
    let alloc = rt.alloc();
    assert!(rt; events_of(alloc, SLOTS)?.len() == 31);
    let theme = scheme_in(alloc, SLOTS, 31)?;
    let found = told(alloc, &theme)?;
    assert_text(&found, "#000000 #112233 #000005 #000003 #000006 ", "told")?;
    assert!(rt; theme.colors.get(1).map(|color| color.alpha) == Some(0x80));
    Ok(())
}

const FAULTY_SLOT: &str = r#"<clrScheme><dk1><srgbClr val="000000" broken>"#;

#[test]
fn parts_without_colors_leave_the_default_theme(rt: HostRuntime) -> Result<(), Fail> {
    let alloc = rt.alloc();
    for (markup, count) in [
        ("<clrScheme><dk1/><lt1/><dk2/></clrScheme>", 8),
        ("<theme><dk1/>", 3),
    ] {
        let found = scheme_told(alloc, markup, count)?;
        assert_text(&found, DEFAULT, markup)?;
    }
    for path in [PATH, "xl/theme1.xml"] {
        let found = theme_told(alloc, FAULTY_SLOT, path)?;
        assert_text(&found, DEFAULT, path)?;
    }
    Ok(())
}

#[test]
fn a_fault_in_a_slot_is_told_to_a_reader(rt: HostRuntime) -> Result<(), Fail> {
    let answer = scheme_in(rt.alloc(), FAULTY_SLOT, 3);
    assert!(rt; matches!(&answer, Err(XlsxError::XmlAttr(_))));
    Ok(())
}

#[test]
fn a_fault_of_the_package_is_no_default_theme(rt: HostRuntime) -> Result<(), Fail> {
    let alloc = rt.alloc();
    for number in 0..20u64 {
        let inner = held_package(alloc, FOUR_SLOTS, 20)?;
        let package = FailingPackage::new(inner, vec![in alloc; number]?);
        let answer = read_theme(&mut XlReader::new(alloc, package), PATH);
        assert!(rt; matches!(&answer, Err(XlsxError::Io)), "call {number}");
    }
    Ok(())
}
