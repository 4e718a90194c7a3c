//! The forms of a report.

/// How a report is written.
#[derive(Clone, Copy, Debug, PartialEq, Eq)]
pub enum Form {
    /// As a page of HTML.
    Page,
    /// In Markdown.
    Markdown,
}
