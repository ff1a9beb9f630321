use live_script::{LiveStop, SiteScript, read_live};
use script_read::{ScriptErr, ScriptKind};
use ss_base::{MemSource, PureSource};
use std::alloc::Global;
use std::test::Fail;

/// What a site has to do, as text.
fn said(alloc: Global, site: &SiteScript) -> Result<String, Fail> {
    Ok(format!(in alloc; "{:?}", site.lines.as_slice())?)
}

/// Each site has the lines that name it and those that are for all, with the numbers of the script.
#[test]
fn parts_a_script_by_sites(rt: HostRuntime) -> Result<(), Fail> {
    let bytes =
        b"# two\nsheet 3 2\nsite a\nsite b\na insrow 2\npush all\nb pull 7\na sync\n\nb read A1:B2\npull all\nend\nshow a\n";
    let mut source = PureSource::new(rt.alloc(), bytes)?;
    let script = read_live(rt.alloc(), &mut source)?;
    assert_eq!(rt; (script.size.rows, script.size.cols), (3, 2));
    let sites = script.sites.as_slice();
    assert_eq!(rt; sites.len(), 2);
    assert_eq!(rt; sites[0].name.bytes(), b"a".as_slice());
    assert_eq!(rt;
        said(rt.alloc(), &sites[0])?.as_str(),
        "[SiteLine { number: 5, action: Edit(InsRow(1)) }, SiteLine { number: 6, action: Push(None) }, SiteLine { number: 8, action: Sync }, SiteLine { number: 11, action: Pull(None) }]"
    );
    assert_eq!(rt; sites[1].name.bytes(), b"b".as_slice());
    assert_eq!(rt;
        said(rt.alloc(), &sites[1])?.as_str(),
        "[SiteLine { number: 6, action: Push(None) }, SiteLine { number: 7, action: Pull(Some(7)) }, SiteLine { number: 10, action: Read(Span { top: 0, left: 0, bottom: 1, right: 1, abs_top: false, abs_left: false, abs_bottom: false, abs_right: false }) }, SiteLine { number: 11, action: Pull(None) }]"
    );
    Ok(())
}

/// The first kind that fits, at the line that stops the script.
#[test]
fn refuses_with_the_first_kind(rt: HostRuntime) -> Result<(), Fail> {
    let table: [(&[u8], u32, ScriptKind); 7] = [
        (b"recalc\n", 1, ScriptKind::Sheet),
        (
            b"sheet 1 1\nsite a\nrecalc 2\nend\n",
            3,
            ScriptKind::NotLive,
        ),
        (b"sheet 1 1\nsite a\nshow b\nend\n", 3, ScriptKind::Site),
        (b"sheet 1 1\nsite a\nshow a\nend\n", 3, ScriptKind::NotLive),
        (b"sheet 1 1\nsite a\na push\nsite b\n", 4, ScriptKind::Site),
        (b"sheet 1 1\n#\n", 3, ScriptKind::Unended),
        (b"sheet 1 1\nend \n", 2, ScriptKind::Grammar),
    ];
    for (bytes, line, kind) in table {
        let mut source = PureSource::new(rt.alloc(), bytes)?;
        let stop = read_live(rt.alloc(), &mut source).err();
        assert_eq!(rt;
            stop,
            Some(LiveStop::Script(ScriptErr { line, kind })),
            "at line {line}"
        );
    }
    Ok(())
}

/// A read that fails gives no script.
#[test]
fn gives_no_script_where_a_read_fails(rt: HostRuntime) -> Result<(), Fail> {
    let mut source = MemSource::new(rt.alloc(), b"sheet 1 1\n", &[2])?;
    let stop = read_live(rt.alloc(), &mut source).err();
    assert_eq!(rt; stop, Some(LiveStop::ReadFault));
    Ok(())
}
