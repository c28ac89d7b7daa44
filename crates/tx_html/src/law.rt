// That no text on a page is markup.
ghost use Rattle.tx_html.specs.Escaped.{NoTextIsMarkup};

/// No byte of an escaped text begins or ends a tag, or ends an attribute, whatever the text is.
pub fn no_text_is_markup()
    ensures { NoTextIsMarkup }
{}
