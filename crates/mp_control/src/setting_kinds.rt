//! What a line of a configuration is about.
ghost use Rattle.std.specs.Prelude.{◌≡◌};
ghost use Rattle.mp_control.specs.SettingKinds.{setting_kind_of};
ghost use Rattle.mp_lines.specs.Checks.{field_at};

use mp_text::FieldList;

/// What a line is about.
#[derive(Clone, Copy)]
pub enum SettingKind {
    /// `V`, the version of the file.
    Version,
    /// `first`, the first owner of a bin: stage, bin, worker.
    First,
    /// `rule`, a constant of the query: name, value.
    Rule,
    /// `drain`, the bins of a worker go to the others: time, gap, stage, worker.
    Drain,
    /// One or more control records, or nothing that is known.
    Control,
}

impl SettingKind {
    /// What a line is about in a file of this version, where a line stands before it or none does.
    pub fn of(fields: &FieldList, begun: bool, version: u64) -> SettingKind
        ensures { result ≡ setting_kind_of begun version (field_at fields.now 0) }
    {
        let Some(first) = fields.get(0) else {
            return SettingKind::Control;
        };
        if !begun && first == b"V".as_slice() {
            SettingKind::Version
        } else if version == 2 && first == b"first".as_slice() {
            SettingKind::First
        } else if version == 2 && first == b"rule".as_slice() {
            SettingKind::Rule
        } else if version == 2 && first == b"drain".as_slice() {
            SettingKind::Drain
        } else {
            SettingKind::Control
        }
    }
}
