// What stands in the page.

/// The head of the page, up to its style.
pub(crate) const FRONT: &str = "<!DOCTYPE html>
<html lang='en'>
<head>
<meta charset='utf-8'>
<meta name='viewport' content='width=device-width, initial-scale=1'>
<link rel='icon' href='data:,'>
<title>Toll office</title>
<style>
";

/// What stands in the page, up to its script.
pub(crate) const BODY: &str = "</style>
</head>
<body>
<header>
<h1>Toll office</h1>
<span id='state' role='status'>asks the server</span>
<span class='soft' id='answered'></span>
</header>
<main>
<section id='wrong' role='alert' aria-labelledby='wrong-name' hidden>
<h2 id='wrong-name'>What went wrong</h2>
<ul id='problems'></ul>
</section>
<section id='live' aria-labelledby='live-name'>
<h2 id='live-name'>Live board</h2>
<p id='empty'>No day has been imported since the server started.</p>
<div id='going' hidden>
<dl>
<div><dt>day</dt><dd id='day'></dd></div>
<div><dt class='mark'>mark (tuples)</dt><dd id='mark'></dd></div>
<div><dt class='total'>total of tolls</dt><dd id='total'></dd></div>
<div><dt>tuples a second</dt><dd id='pace'></dd></div>
</dl>
<p id='course' role='status'></p>
<svg id='curve' viewBox='0 0 600 200' preserveAspectRatio='none' role='img' aria-labelledby='span-text'>
<line class='grid' x1='0' y1='50' x2='600' y2='50'/><line class='grid' x1='0' y1='100' x2='600' y2='100'/>
<line class='grid' x1='0' y1='150' x2='600' y2='150'/><line class='axis' x1='0' y1='199' x2='600' y2='199'/>
<polygon class='total-area' id='area'/><polyline class='mark-line' id='mark-line'/>
<polyline class='total-line' id='total-line'/>
</svg>
<div class='spans'><span id='span-from'></span><span id='span-text'></span><span id='span-to'></span></div>
</div>
</section>
<section aria-labelledby='accounts-name'>
<h2 id='accounts-name'>Accounts on the live board</h2>
<form id='add'>
<label for='vid'>Vehicle</label>
<input id='vid' inputmode='numeric' autocomplete='off' aria-describedby='vid-help'>
<button>Watch</button>
</form>
<p class='soft' id='vid-help' role='status'>A number from 0 to 2147483647.</p>
<table id='accounts' hidden>
<thead><tr><th scope='col'>vehicle</th><th scope='col'>balance</th><th scope='col'>mark</th>
<th scope='col'><span class='soft'>stop</span></th></tr></thead>
<tbody id='account-rows'></tbody>
</table>
</section>
<section aria-labelledby='days-name'>
<h2 id='days-name'>Kept days</h2>
<p id='no-days'>None is kept.</p>
<div class='wide' id='days' tabindex='0' role='region' aria-labelledby='days-name' hidden>
<table>
<thead><tr><th scope='col'>day</th><th scope='col'>tuples</th><th scope='col'>notices</th><th scope='col'>total</th>
<th scope='col' aria-hidden='true'></th></tr></thead>
<tbody id='day-rows'></tbody>
</table>
</div>
</section>
</main>
<script>
'use strict';
";

/// The end of the page.
pub(crate) const END: &str = "watch();
</script>
</body>
</html>
";
