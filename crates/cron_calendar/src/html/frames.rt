//! The fixed texts of a page, in their order.

pub(super) const HEAD_START: &str = "<!DOCTYPE html>\n<html lang=\"en\">\n<head>\n\
<meta charset=\"utf-8\">\n<meta name=\"viewport\" content=\"width=device-width\">\n\
<title>Fires of ";

pub(super) const HEAD_STYLE: &str = "</title>\n<style>";

pub(super) const HEAD_TITLE: &str = "</style>\n</head>\n<body>\n<h1>Fires of ";

pub(super) const HEAD_ZONE: &str = "</h1>\n<p>Zone: ";

pub(super) const HEAD_END: &str = "</p>\n";

pub(super) const ENTRIES_START: &str = "<table class=\"entries\">\n<thead><tr><th></th>\
<th scope=\"col\">Entry</th><th scope=\"col\">Fires</th>\
<th scope=\"col\">January to December</th></tr></thead>\n<tbody>\n";

pub(super) const ENTRY_START: &str = "<tr class=\"e";

pub(super) const ENTRY_NAME: &str =
    "><td><span class=\"swatch\"></span></td><th scope=\"row\"><code>";

pub(super) const ENTRY_TOTAL: &str = "</code></th><td class=\"number\">";

pub(super) const ENTRY_STRIP: &str = "</td><td class=\"when\">\
<svg viewBox=\"0 0 366 10\" preserveAspectRatio=\"none\" aria-hidden=\"true\">";

pub(super) const ENTRY_END: &str = "</svg></td></tr>\n";

pub(super) const ENTRIES_END: &str = "</tbody>\n</table>\n";

pub(super) const DAYS_START: &str = "<h2>By day</h2>\n\
<svg class=\"map\" viewBox=\"0 0 790 120\" role=\"img\" \
aria-label=\"Fires of each day, as in the table below\">\n";

pub(super) const SHADES_START: &str = "<h2>By day</h2>\n\
<p>How many entries fire on a day, without those that fire on each day of the year</p>\n\
<svg class=\"map\" viewBox=\"0 0 790 120\" role=\"img\" \
aria-label=\"Entries of each day, without those that fire on each day of the year\">\n";

pub(super) const DAYS_SCALE: &str = "</svg>\n<p class=\"scale\">fewer \
<span class=\"b0\"></span><span class=\"b1\"></span><span class=\"b2\"></span>\
<span class=\"b3\"></span><span class=\"b4\"></span> more, up to ";

pub(super) const DAYS_END: &str = " a day</p>\n";

pub(super) const SHADES_END: &str = " entries a day</p>\n";

pub(super) const HOURS_START: &str = "<h2>By weekday and hour</h2>\n\
<div class=\"wide\"><table class=\"hours\">\n<thead><tr><th></th>";

pub(super) const HOURS_END: &str = "</tbody>\n</table></div>\n";

pub(super) const CLOCK_START: &str = "<h2>The clock</h2>\n<pre>";

pub(super) const CLOCK_END: &str = "</pre>\n";

pub(super) const TABLE_START: &str = "<details>\n\
<summary>The number of each day</summary>\n<table class=\"days\">\n\
<thead><tr><th scope=\"col\">Day</th><th scope=\"col\">Fires</th></tr></thead>\n<tbody>\n";

pub(super) const TABLE_END: &str = "</tbody>\n</table>\n</details>\n";

pub(super) const MONTH_START: &str = "<div class=\"wide\"><table class=\"month\">\n\
<thead><tr><th scope=\"col\">Mon</th><th scope=\"col\">Tue</th><th scope=\"col\">Wed</th>\
<th scope=\"col\">Thu</th><th scope=\"col\">Fri</th><th scope=\"col\">Sat</th>\
<th scope=\"col\">Sun</th></tr></thead>\n<tbody>\n";

pub(super) const MONTH_END: &str = "</tbody>\n</table></div>\n";

pub(super) const PAGE_END: &str = "</body>\n</html>\n";
