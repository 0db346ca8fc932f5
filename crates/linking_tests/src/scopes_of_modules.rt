//! Modules and the names that they may use of others.

use host_io::MemFiles;
use linking::link;
use loading::{ModuleText, load};
use resolver::{Code, CodeDef};
use std::alloc::{AllocError, Global};
use std::test::Fail;

/// Texts by their paths, and what `a` gives: how many definitions there are, and the number of the
/// one that the last body names; or the module that is refused, by its number, with its fault.
type Case = (&'static [(&'static str, &'static str)], &'static str);

const CASES: &[Case] = &[
    (
        &[("a.ctt", "module a where\nx : nat = zero\ny : nat = x")],
        "2: 0",
    ),
    // what an import imports is reached
    (
        &[
            ("a.ctt", "module a where\nimport b\ny : nat = x"),
            ("b.ctt", "module b where\nimport c"),
            ("c.ctt", "module c where\nx : nat = zero"),
        ],
        "2: 0",
    ),
    // of two modules that define one name the later loaded hides the other
    (
        &[
            ("a.ctt", "module a where\nimport b\nimport c\ny : nat = x"),
            ("b.ctt", "module b where\nx : nat = zero"),
            ("c.ctt", "module c where\nx : nat = zero"),
        ],
        "3: 1",
    ),
    (
        &[
            ("a.ctt", "module a where\nimport c\nimport b\ny : nat = x"),
            ("b.ctt", "module b where\nx : nat = zero"),
            ("c.ctt", "module c where\nx : nat = zero"),
        ],
        "3: 1",
    ),
    // a name of the module itself hides both; a local definition counts
    (
        &[
            (
                "a.ctt",
                "module a where\nimport b\nx : nat = zero\ny : nat = x",
            ),
            ("b.ctt", "module b where\nx : nat = let z : nat = zero in z"),
        ],
        "4: 2",
    ),
    // a star, of which one module is reached by two ways
    (
        &[
            (
                "a.ctt",
                "module a where\nimport b\nimport c\nimport d\ny : nat = x",
            ),
            ("b.ctt", "module b where\nimport d\nz : nat = x"),
            ("c.ctt", "module c where\nimport d"),
            ("d.ctt", "module d where\nx : nat = zero"),
        ],
        "3: 0",
    ),
    // what was loaded before is no more in scope than its names are reached
    (
        &[
            ("a.ctt", "module a where\nimport b\nimport c"),
            ("b.ctt", "module b where\nx : nat = zero"),
            ("c.ctt", "module c where\ny : nat = x"),
        ],
        "1 Unbound(25)",
    ),
    // the fault of the module that is resolved first
    (
        &[
            ("a.ctt", "module a where\nimport b\ny : nat = z"),
            ("b.ctt", "module b where\nx : nat = zero\nx : nat = zero"),
        ],
        "0 Twice(30)",
    ),
];

/// The number of the definition that the last body names.
fn last_named(defs: &[CodeDef]) -> Option<u32> {
    match defs.last()?.body {
        Code::Defined { number, .. } => Some(number),
        _ => None,
    }
}

/// What linking modules gives.
fn shown(alloc: Global, texts: &[ModuleText]) -> Result<String, AllocError> {
    match link(alloc, texts) {
        Ok(codes) => match last_named(codes.as_slice()) {
            Some(number) => format!(in alloc; "{}: {number}", codes.next()),
            None => format!(in alloc; "{}", codes.next()),
        },
        Err(refused) => format!(in alloc; "{} {:?}", refused.module, refused.fault),
    }
}

#[test]
fn modules_are_resolved_in_the_scope_of_their_imports(rt: HostRuntime) -> Result<(), Fail> {
    for (held, wanted) in CASES {
        let mut files = MemFiles::new(rt.alloc(), &[])?;
        for (path, text) in *held {
            files.put(path, text.as_bytes())?;
        }
        match load(rt.alloc(), &mut files, "a") {
            Ok(texts) => assert_eq!(rt; shown(rt.alloc(), &texts)?.as_str(), *wanted),
            Err(_) => assert!(rt; false, "{wanted}"),
        }
    }
    Ok(())
}
